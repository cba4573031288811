//! The words that name an access.
ghost use Rattle.std.specs.Prelude.{◌≡◌, ◌↔◌, ℕ, IsTrue, MatchOption, IfSome, IfNone};
ghost use Rattle.capgrant.specs.declared.access.Access.{Access as AnAccess};
ghost use Rattle.capgrant.specs.declared.access.Access.TheVariants as accesses;
ghost use Rattle.texts.specs.Access.{IsAccessWord};

use capbits::read_u32;
use capgrant::Access;

/// The access that a word names: `read`, `write`, `vxattr`, `snapshot`, `chmod`, or `chown:N` or `chgrp:N` with a decimal
/// number of 32 bits.
pub fn read_access(text: &[u8]) -> Option<Access>
    ensures { MatchOption result ((access : AnAccess) → ¬ IsAccessWord text.now access) (IsAccessWord text.now) }
{
    if is_word(text, "read") {
        Some(Access::Read)
    } else if is_word(text, "write") {
        Some(Access::Write)
    } else if is_word(text, "vxattr") {
        Some(Access::SetVxattr)
    } else if is_word(text, "snapshot") {
        Some(Access::Snapshot)
    } else if is_word(text, "chmod") {
        Some(Access::Chmod)
    } else {
        read_with_number(text)
    }
}

fn is_word(text: &[u8], word: &str) -> bool
    ensures { IsTrue result ↔ (text.now ≡ word.now) }
{
    text == word.as_bytes()
}

// The access that a word with a number names.
fn read_with_number(text: &[u8]) -> Option<Access>
    ensures some { IfSome result (IsAccessWord text.now) }
    ensures none { IfNone result ((n : ℕ) → (¬ IsAccessWord text.now (accesses.Chown n)) × (¬ IsAccessWord text.now (accesses.Chgrp n))) }
{
    if let Some(digits) = text.strip_prefix(b"chown:") {
        read_u32(digits).map(Access::Chown)
    } else if let Some(digits) = text.strip_prefix(b"chgrp:") {
        read_u32(digits).map(Access::Chgrp)
    } else {
        None
    }
}
