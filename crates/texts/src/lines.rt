//! Cutting a text into lines.
ghost use Rattle.std.specs.Prelude.{◌≡◌, ◌<◌, ◌∷◌, [], length, IfSome, MatchOption};
ghost use Rattle.texts.specs.ScriptLines.{lines};

/// The line before the first line feed and what stands behind it, if there is one.
pub fn split_line(script: &[u8]) -> Option<(&[u8], &[u8])>
    ensures lines { MatchOption result
        (lines script.now ≡ script.now ∷ [])
        (λ cut. lines script.now ≡ cut.0.now ∷ lines cut.1.now) }
    ensures shorter { IfSome result (λ cut. length cut.1.now < length script.now) }
{
    let end = script.iter().position(|byte| *byte == b'\n')?;
    Some((&script[..end], &script[end + 1..]))
}
