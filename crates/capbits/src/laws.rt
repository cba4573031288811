//! Laws of sets of caps. No program needs to call them.

ghost use Rattle.std.specs.Prelude.{◌≡◌, IsTrue, IsFalse};
ghost use Rattle.capbits.specs.declared.cap.Cap.{Cap};
ghost use Rattle.capbits.specs.declared.cap.Cap.TheVariants.{P};
ghost use Rattle.capbits.specs.declared.cap.Part.{Part};
ghost use Rattle.capbits.specs.Caps.{Caps};
ghost use Rattle.capbits.specs.Sets.{covers};
ghost use Rattle.capbits.specs.Text.{text_of};

/// No two sets have the same text.
pub fn one_set_for_a_text()
    ensures { (s t : Caps) → text_of s ≡ text_of t → s ≡ t }
{}

/// A cap covers at most one part, and the pin covers none.
pub fn one_part_for_a_cap()
    ensures one_part { (c : Cap) (p q : Part) → IsTrue (covers c p) → IsTrue (covers c q) → p ≡ q }
    ensures pin { (part : Part) → IsFalse (covers P part) }
{}
