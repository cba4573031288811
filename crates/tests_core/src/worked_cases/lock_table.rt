//! Cases of the lock table.
#![tactic(auto, unfolding(crate::proofs::Unfolded::locks))]

ghost use Rattle.std.specs.Prelude.{◌≡◌, [], ◌∷◌, codes, Option, Some, None, true, false};
ghost use Rattle.capbits.specs.declared.ids.ClientId.{ClientId};
ghost use Rattle.capbits.specs.declared.cap.Part.{Part};
ghost use Rattle.capbits.specs.declared.cap.Part.TheVariants.{A, F, L, X};
ghost use Rattle.capbits.specs.Caps.{Caps};
ghost use Rattle.capbits.specs.declared.cap.Cap.TheVariants.{As, Ax, Fb, Fc, Fl, Fr, Fs, Fw, Fx, Ls, Lx, P, Xs, Xx};
ghost use Rattle.capbits.specs.Sets.{caps_in};
ghost use Rattle.locktable.specs.declared.states.StableState.{StableState};
ghost use Rattle.locktable.specs.declared.states.StableState.TheVariants.{Excl, Lock, Mix, Sync};
ghost use Rattle.locktable.specs.declared.states.LockState.TheVariants.{Gather, Stable};
ghost use Rattle.locktable.specs.declared.targets.Head.TheVariants.{Change, Empty, Read};
ghost use Rattle.locktable.specs.Targets.{target_of};
ghost use Rattle.tests_core.specs.Clients.{first, second};
ghost use Rattle.tests_core.specs.LockTable.{allowed, alone, among, cells, goes, serving};

/// What a client may hold of the parts A, L, X and F, by the state of their locks. MIX is a state of the file lock alone.
pub fn lock_cells()
    ensures sync { (c : ClientId) → cells Sync c ≡ codes "As" ∷ codes "Ls" ∷ codes "Xs" ∷ codes "Fscrl" ∷ [] }
    ensures lock { (c : ClientId) → cells Lock c ≡ codes "-" ∷ codes "-" ∷ codes "-" ∷ codes "Fc" ∷ [] }
    ensures mix { (c : ClientId) → cells Mix c ≡ codes "-" ∷ codes "-" ∷ codes "-" ∷ codes "Frwl" ∷ [] }
    ensures excl { cells (Excl first) first ≡ codes "Asx" ∷ codes "Lsx" ∷ codes "Xsx" ∷ codes "Fsxcrwb" ∷ [] }
    ensures excl_of_another { cells (Excl first) second ≡ codes "-" ∷ codes "-" ∷ codes "-" ∷ codes "-" ∷ [] }
    ensures another_excl { cells (Excl second) second ≡ codes "Asx" ∷ codes "Lsx" ∷ codes "Xsx" ∷ codes "Fsxcrwb" ∷ [] }
    ensures another_excl_of_first { cells (Excl second) first ≡ codes "-" ∷ codes "-" ∷ codes "-" ∷ codes "-" ∷ [] }
    ensures stable { (state : StableState) (c : ClientId) → allowed A (Stable state) c ∷ allowed L (Stable state) c ∷ allowed X (Stable state) c ∷ allowed F (Stable state) c ∷ [] ≡ cells state c }
{}

/// In a gather a client may hold what both states let it hold.
pub fn gathers()
    ensures excl_to_mix { allowed F (Gather (Excl first) Mix) first ≡ codes "Frw" }
    ensures excl_to_mix_of_another { allowed F (Gather (Excl first) Mix) second ≡ codes "-" }
    ensures excl_to_sync { allowed F (Gather (Excl first) Sync) first ≡ codes "Fscr" }
    ensures excl_to_sync_of_another { allowed F (Gather (Excl first) Sync) second ≡ codes "-" }
    ensures excl_to_excl { allowed F (Gather (Excl first) (Excl second)) first ∷ allowed F (Gather (Excl first) (Excl second)) second ∷ [] ≡ codes "-" ∷ codes "-" ∷ [] }
    ensures mix_to_sync { (c : ClientId) → allowed F (Gather Mix Sync) c ≡ codes "Frl" }
    ensures mix_to_lock { (c : ClientId) → allowed F (Gather Mix Lock) c ≡ codes "-" }
    ensures auth_to_excl { allowed A (Gather Sync (Excl first)) first ∷ allowed A (Gather Sync (Excl first)) second ∷ [] ≡ codes "As" ∷ codes "-" ∷ [] }
    ensures auth_from_excl { allowed A (Gather (Excl first) Sync) first ∷ allowed A (Gather (Excl first) Sync) second ∷ [] ≡ codes "As" ∷ codes "-" ∷ [] }
    ensures xattr_to_excl { allowed X (Gather Lock (Excl first)) first ∷ allowed X (Gather Lock (Excl first)) second ∷ [] ≡ codes "-" ∷ codes "-" ∷ [] }
    ensures sync_to_mix { (c : ClientId) → allowed F (Gather Sync Mix) c ≡ codes "Frl" }
    ensures sync_to_lock { (c : ClientId) → allowed F (Gather Sync Lock) c ≡ codes "Fc" }
    ensures auth_to_lock { (c : ClientId) → allowed A (Gather Sync Lock) c ≡ codes "-" }
{}

/// What SYNC, LOCK, MIX and the first client's EXCL serve: a change in LOCK alone, a read where the client may read. None serves an empty queue.
pub fn served_heads()
    ensures change { serving Change ≡ false ∷ true ∷ false ∷ false ∷ [] }
    ensures read { serving (Read first) ≡ true ∷ true ∷ false ∷ true ∷ [] }
    ensures read_of_another { serving (Read second) ≡ true ∷ true ∷ false ∷ false ∷ [] }
    ensures empty { serving Empty ≡ false ∷ false ∷ false ∷ false ∷ [] }
{}

/// Where a lock goes for what stands first in its queue, whoever wants the part: to LOCK for a change, and for a read to a state that serves it.
pub fn lock_targets()
    ensures change { (part : Part) (state : StableState) (loner : Option (ClientId × Caps)) (wanted : Caps) → target_of part state Change loner wanted ≡ Lock }
    ensures read_in_sync { (part : Part) (loner : Option (ClientId × Caps)) (wanted : Caps) → target_of part Sync (Read first) loner wanted ≡ Sync }
    ensures read_in_lock { (part : Part) (loner : Option (ClientId × Caps)) (wanted : Caps) → target_of part Lock (Read first) loner wanted ≡ Lock }
    ensures read_by_the_holder { (part : Part) (loner : Option (ClientId × Caps)) (wanted : Caps) → target_of part (Excl first) (Read first) loner wanted ≡ Excl first }
    ensures read_by_another { (part : Part) (loner : Option (ClientId × Caps)) (wanted : Caps) → target_of part (Excl first) (Read second) loner wanted ≡ Sync }
    ensures read_in_mix { (part : Part) (loner : Option (ClientId × Caps)) (wanted : Caps) → target_of part Mix (Read first) loner wanted ≡ Sync }
{}

/// A part that nobody wants leaves its lock where it is.
pub fn unwanted_parts()
    ensures file { (state : StableState) → among F state (P ∷ As ∷ Ax ∷ []) ≡ state }
    ensures auth { (state : StableState) → among A state (P ∷ Fx ∷ Fw ∷ Fb ∷ []) ≡ state }
    ensures link { (state : StableState) → among L state (P ∷ Fx ∷ Fw ∷ Fb ∷ []) ≡ state }
    ensures pin { (part : Part) (state : StableState) → among part state (P ∷ []) ≡ state }
    ensures pin_of_a_loner { (part : Part) (state : StableState) → alone part state (P ∷ []) ≡ state }
{}

/// From each state a lock goes to EXCL for a loner that wants to change what the part holds, and else to SYNC.
pub fn targets_of_a_loner()
    ensures file_for_itself { (state : StableState) → alone F state (Fx ∷ []) ≡ Excl first }
    ensures file_to_write { (state : StableState) → alone F state (Fw ∷ []) ≡ Excl first }
    ensures file_to_buffer { (state : StableState) → alone F state (Fb ∷ []) ≡ Excl first }
    ensures file_to_read { (state : StableState) → alone F state (Fs ∷ Fc ∷ Fr ∷ []) ≡ Sync }
    ensures file_lazily { (state : StableState) → alone F state (Fl ∷ []) ≡ Sync }
    ensures auth_to_change { (state : StableState) → alone A state (Ax ∷ []) ≡ Excl first }
    ensures auth_to_share { (state : StableState) → alone A state (As ∷ []) ≡ Sync }
    ensures link_to_change { (state : StableState) → alone L state (Lx ∷ []) ≡ Excl first }
    ensures link_to_share { (state : StableState) → alone L state (Ls ∷ []) ≡ Sync }
    ensures xattr_to_change { (state : StableState) → alone X state (Xx ∷ []) ≡ Excl first }
    ensures xattr_to_share { (state : StableState) → alone X state (Xs ∷ []) ≡ Sync }
{}

/// From each state a lock goes to MIX where one of several clients wants to write the file, and else to SYNC.
pub fn targets_of_several()
    ensures file_to_write { (state : StableState) → among F state (P ∷ Fx ∷ Fw ∷ Fb ∷ []) ≡ Mix }
    ensures file_to_read { (state : StableState) → among F state (Fs ∷ Fc ∷ Fr ∷ []) ≡ Sync }
    ensures file_for_itself { (state : StableState) → among F state (Fx ∷ []) ≡ Sync }
    ensures file_to_buffer { (state : StableState) → among F state (Fb ∷ []) ≡ Sync }
    ensures auth_to_change { (state : StableState) → among A state (P ∷ As ∷ Ax ∷ []) ≡ Sync }
    ensures link_to_change { (state : StableState) → among L state (Lx ∷ []) ≡ Sync }
    ensures xattr_to_change { (state : StableState) → among X state (Xx ∷ []) ≡ Sync }
{}

/// Where a lock goes for which nobody waits, by what the clients want of its inode: nowhere, where they want nothing of the part.
pub fn wanted_targets()
    ensures nobody { (part : Part) (state : StableState) → goes part state [] ≡ state }
    ensures pin_alone { (part : Part) (state : StableState) → goes part state ((first, caps_in (P ∷ [])) ∷ []) ≡ state }
    ensures another_part { goes A (Excl second) ((first, caps_in (P ∷ Fs ∷ Fw ∷ [])) ∷ []) ≡ Excl second }
    ensures loner_writes { goes F Sync ((first, caps_in (P ∷ Fw ∷ [])) ∷ []) ≡ Excl first }
    ensures loner_keeps_to_itself { goes F Sync ((first, caps_in (P ∷ Fx ∷ [])) ∷ []) ≡ Excl first }
    ensures loner_buffers { goes F Sync ((first, caps_in (P ∷ Fb ∷ [])) ∷ []) ≡ Excl first }
    ensures loner_reads { goes F Mix ((first, caps_in (P ∷ Fs ∷ Fc ∷ Fr ∷ [])) ∷ []) ≡ Sync }
    ensures loner_beside_a_pin { goes F Sync ((first, caps_in (P ∷ Fw ∷ [])) ∷ (second, caps_in (P ∷ [])) ∷ []) ≡ Excl first }
    ensures one_of_two_writes { goes F (Excl first) ((first, caps_in (P ∷ Fs ∷ Fx ∷ Fc ∷ Fr ∷ Fw ∷ Fb ∷ [])) ∷ (second, caps_in (P ∷ Fs ∷ Fc ∷ Fr ∷ [])) ∷ []) ≡ Mix }
    ensures both_read { goes F (Excl first) ((first, caps_in (P ∷ Fs ∷ Fr ∷ [])) ∷ (second, caps_in (P ∷ Fs ∷ Fc ∷ Fr ∷ [])) ∷ []) ≡ Sync }
    ensures loner_changes_auth { goes A Sync ((first, caps_in (P ∷ As ∷ Ax ∷ [])) ∷ []) ≡ Excl first }
    ensures loner_shares_auth { goes A (Excl second) ((first, caps_in (P ∷ As ∷ [])) ∷ []) ≡ Sync }
    ensures two_change_auth { goes A (Excl first) ((first, caps_in (P ∷ Ax ∷ [])) ∷ (second, caps_in (P ∷ Ax ∷ [])) ∷ []) ≡ Sync }
{}
