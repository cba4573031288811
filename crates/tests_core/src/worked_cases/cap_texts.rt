//! Cases of sets of caps, their texts and their numbers.
#![tactic(auto, unfolding(crate::proofs::Unfolded::sets))]

ghost use Rattle.std.specs.Prelude.{◌≡◌, ◌≢◌, [], ◌∷◌, codes, map, true, false};
ghost use Rattle.std.specs.List.{list_all, list_any};
ghost use Rattle.capbits.specs.declared.cap.Cap.TheVariants.{As, Ax, Fb, Fc, Fr, Fs, Fw, Fx, Ls, P, Xs, Xx};
ghost use Rattle.capbits.specs.declared.cap.Part.TheVariants.{A, F, L, X};
ghost use Rattle.capbits.specs.Caps.{Caps, all_caps, bits_of, caps_of, has};
ghost use Rattle.capbits.specs.Sets.{IsSubset, caps_in, caps_of_part, is_empty, meet, minus, no_caps, of_part, union};
ghost use Rattle.capbits.specs.Text.{text_of};
ghost use Rattle.cap_text.specs.Beginnings.{IsLongestBeginning};
ghost use Rattle.tests_core.specs.CapTexts.{mine, other};

/// Sets and the texts that they have.
pub fn texts_of_sets()
    ensures none { text_of no_caps ≡ codes "-" }
    ensures pin { text_of (caps_in (P ∷ [])) ≡ codes "p" }
    ensures one { text_of (caps_in (As ∷ [])) ≡ codes "As" }
    ensures of_one_part { text_of (caps_in (Fr ∷ Fw ∷ [])) ≡ codes "Frw" }
    ensures shared { text_of (caps_in (P ∷ As ∷ Ls ∷ Xs ∷ Fs ∷ [])) ≡ codes "pAsLsXsFs" }
    ensures all { text_of (caps_in all_caps) ≡ codes "pAsxLsxXsxFsxcrwbal" }
    ensures most { text_of (caps_in (P ∷ As ∷ Ax ∷ Ls ∷ Xs ∷ Xx ∷ Fs ∷ Fx ∷ Fc ∷ Fr ∷ Fw ∷ Fb ∷ [])) ≡ codes "pAsxLsXsxFsxcrwb" }
    ensures file { text_of (caps_in (P ∷ Fs ∷ Fx ∷ Fc ∷ Fr ∷ Fw ∷ Fb ∷ [])) ≡ codes "pFsxcrwb" }
    ensures file_in_another_order { text_of (caps_in (Fb ∷ Fw ∷ Fr ∷ Fc ∷ Fx ∷ Fs ∷ P ∷ [])) ≡ codes "pFsxcrwb" }
{}

/// Sets and the numbers that they have.
pub fn bits_of_sets()
    ensures none { bits_of no_caps ≡ 0 }
    ensures of_one_part { bits_of (caps_in (Fr ∷ Fw ∷ [])) ≡ 6144 }
    ensures shared { bits_of (caps_in (P ∷ As ∷ Ls ∷ Xs ∷ Fs ∷ [])) ≡ 341 }
    ensures most { bits_of (caps_in (P ∷ As ∷ Ax ∷ Ls ∷ Xs ∷ Xx ∷ Fs ∷ Fx ∷ Fc ∷ Fr ∷ Fw ∷ Fb ∷ [])) ≡ 16349 }
    ensures file { bits_of (caps_in (P ∷ Fs ∷ Fx ∷ Fc ∷ Fr ∷ Fw ∷ Fb ∷ [])) ≡ 16129 }
    ensures all { caps_of 65533 ≡ caps_in all_caps }
    ensures all_bits { bits_of (caps_in all_caps) ≡ 65533 }
{}

/// The number of each cap alone, which has this cap, and without which all caps have it no more.
pub fn bits_of_caps()
    ensures numbers { map (λ cap. bits_of (caps_in (cap ∷ []))) all_caps ≡ 1 ∷ 4 ∷ 8 ∷ 16 ∷ 32 ∷ 64 ∷ 128 ∷ 256 ∷ 512 ∷ 1024 ∷ 2048 ∷ 4096 ∷ 8192 ∷ 16384 ∷ 32768 ∷ [] }
    ensures has_it { list_all (λ cap. has (caps_in (cap ∷ [])) cap) all_caps ≡ true }
    ensures all_have_it { list_all (has (caps_in all_caps)) all_caps ≡ true }
    ensures the_others_do_not { list_any (λ cap. has (minus (caps_in all_caps) (caps_in (cap ∷ []))) cap) all_caps ≡ false }
{}

/// Numbers that no set has: they have the second bit, or one beyond the sixteenth.
pub fn numbers_of_no_set()
    ensures second_bit { (s : Caps) → bits_of s ≢ 2 }
    ensures second_bit_and_pin { (s : Caps) → bits_of s ≢ 3 }
    ensures all_sixteen { (s : Caps) → bits_of s ≢ 65535 }
    ensures seventeenth { (s : Caps) → bits_of s ≢ 65536 }
    ensures seventeenth_and_pin { (s : Caps) → bits_of s ≢ 65537 }
    ensures greatest { (s : Caps) → bits_of s ≢ 4294967295 }
{}

/// Two sets joined, what both have, what one alone has, and the parts of a set.
pub fn joined_and_parted()
    ensures either { bits_of (union mine other) ≡ 1293 }
    ensures both { bits_of (meet mine other) ≡ 1024 }
    ensures mine_alone { bits_of (minus mine other) ≡ 261 }
    ensures contains { IsSubset (meet mine other) mine }
    ensures contains_not { IsSubset other mine → ⊥ }
    ensures parts { map (λ part. bits_of (caps_in (caps_of_part part))) (A ∷ L ∷ X ∷ F ∷ []) ≡ 12 ∷ 48 ∷ 192 ∷ 65280 ∷ [] }
    ensures parts_of_mine { map (λ part. bits_of (of_part part mine)) (A ∷ L ∷ X ∷ F ∷ []) ≡ 4 ∷ 0 ∷ 0 ∷ 1280 ∷ [] }
    ensures empty { is_empty no_caps ≡ true }
    ensures not_empty { is_empty mine ≡ false }
{}

/// How many first bytes of a text begin the text of some set: here a cap text has its fault.
pub fn longest_beginnings()
    ensures another_order { IsLongestBeginning (codes "pFcs") 3 }
    ensures capital_alone { IsLongestBeginning (codes "pF") 2 }
    ensures nothing { IsLongestBeginning [] 0 }
{}
