//! The place of a fault in a text.

use std::alloc::{AllocError, Global};
use std::io::Write;

// How many bytes of a long line are shown before the place, and from it on.
const BEFORE: usize = 48;

const BEHIND: usize = 24;

// What stands where more of the text does.
const CUT: &str = "...";

/// Writes the line of the text that has the place, or the part of it next to the place where it is long, and a caret below the byte at
/// the place. Without memory for that nothing is written.
pub(crate) fn point_at(alloc: Global, text: &[u8], at: usize, faults: &mut impl Write) {
    let mut line = String::new(alloc);
    let mut blanks = String::new(alloc);
    if show(&mut line, &mut blanks, text, at).is_ok() {
        let _ = writeln!(faults, "  {line}\n  {blanks}^");
    }
}

// Appends what is shown of the text, a column for each byte, and a blank for each of them before the place.
fn show(line: &mut String, blanks: &mut String, text: &[u8], at: usize) -> Result<(), AllocError> {
    let start = at.saturating_sub(BEFORE);
    let end = text.len().min(at.saturating_add(BEHIND));
    if start > 0 {
        line.push_str(CUT)?;
        blanks.push_str("   ")?;
    }
    for place in start..end {
        match text[place] {
            b'\n' if place < at => {
                line.clear();
                blanks.clear();
                continue;
            }
            b'\n' => return Ok(()),
            // No other byte takes one column on each terminal, and moves nothing there.
            byte @ b' '..=b'~' => line.push(char::from(byte))?,
            _ => line.push('?')?,
        }
        if place < at {
            blanks.push(' ')?;
        }
    }
    if end < text.len() {
        line.push_str(CUT)?;
    }
    Ok(())
}
