//! Cases of what clients of a cluster hold together.
#![tactic(auto, unfolding(crate::proofs::Conflicting::holdings))]

ghost use Rattle.std.specs.Prelude.{◌≡◌, [], ◌∷◌};
ghost use Rattle.capbits.specs.declared.cap.Cap.TheVariants.{As, Ax, Fc, Fr, Fs, Fw, Ls, P, Xs};
ghost use Rattle.cluster_audit.specs.Conflicts.{conflicts_of};
ghost use Rattle.tests_core.specs.Holdings.{beside, holds};

/// Each of four sessions is laid beside each that comes after it, in their order; those that conflict are told with what conflicts.
pub fn conflicts_in_their_order()
    ensures four { conflicts_of (holds 4149 (P ∷ As ∷ Ls ∷ Xs ∷ Fr ∷ Fw ∷ []) ∷ holds 4151 (P ∷ As ∷ Ls ∷ Xs ∷ Fr ∷ Fw ∷ []) ∷ holds 4135 (P ∷ As ∷ Fs ∷ Fc ∷ []) ∷ holds 4160 (P ∷ Ax ∷ []) ∷ [])
        ≡ beside (holds 4149 (Fw ∷ [])) (holds 4135 (Fs ∷ Fc ∷ [])) ∷ beside (holds 4149 (As ∷ [])) (holds 4160 (Ax ∷ []))
        ∷ beside (holds 4151 (Fw ∷ [])) (holds 4135 (Fs ∷ Fc ∷ [])) ∷ beside (holds 4151 (As ∷ [])) (holds 4160 (Ax ∷ []))
        ∷ beside (holds 4135 (As ∷ [])) (holds 4160 (Ax ∷ [])) ∷ [] }
{}
