//! The words of a line.
ghost use Rattle.std.specs.Prelude.{◌≡◌, ◌∷◌, [], map, MatchOption};
ghost use Rattle.capexplain.specs.Words.{parts, words};

use arrayvec::ArrayVec;

/// How many parts a line is cut into at most.
pub(crate) const MAX_PARTS: usize = 6;

// The words of a line, of which the sixth is all that is left of it.
pub(crate) fn split_words(text: &[u8]) -> ArrayVec<&[u8], MAX_PARTS>
    ensures { map (λ part. part.now) result.items ≡ parts text.now }
{
    let mut parts = ArrayVec::new();
    let mut rest = text;
    for _ in 1..MAX_PARTS {
        match split_at_space(rest) {
            Some((word, behind)) => {
                parts.push(word);
                rest = behind;
            }
            None => break,
        }
    }
    parts.push(rest);
    parts
}

/// The word before the first space and what stands behind the space, if there is one.
pub fn split_at_space(text: &[u8]) -> Option<(&[u8], &[u8])>
    ensures { MatchOption result
        (words text.now ≡ text.now ∷ [])
        (λ cut. words text.now ≡ cut.0.now ∷ words cut.1.now) }
{
    let end = text.iter().position(|byte| *byte == b' ')?;
    Some((&text[..end], &text[end + 1..]))
}
