//! What stands outside of items.

ghost use Rattle.std.specs.Prelude.{◌≡◌, ◌+◌, ◌≤◌, ◌<◌, ◌⊎◌, ◌++◌, ◌^◌, ℕ, List, [], ◌∷◌, IfOk, IfErr, IsTrue, MatchResult, length, drop};
ghost use Rattle.ceph_input.specs.Rows.{IsBroken, IsShallow, closed, depth_at, is_inside, is_white, passed, rows_at, unindented};

use crate::array_fault::{Expected, RowFault};
use crate::stage::Stage;

/// What a byte outside of items is.
pub enum Pass {
    /// A byte behind which the reader stands here.
    Taken(Stage),
    /// The first byte of what belongs to an item; the reader stands here, before it.
    Item(Stage),
    /// Something else than an array has.
    Wrong(Expected),
}

// The white space of JSON.
fn is_white(byte: u8) -> bool
    ensures { result ≡ is_white byte }
{
    byte == b' ' || byte == b'\t' || byte == b'\n' || byte == b'\r'
}

/// The item from its first byte on that is no white space.
pub(crate) fn unindented(item: &[u8]) -> &[u8]
    ensures { result.now ≡ unindented item.now }
{
    let mut rest = item;
    while let [first, behind @ ..] = rest {
        if !is_white(*first) {
            break;
        }
        rest = behind;
    }
    rest
}

// What a byte is that stands behind what a reader has read, who stands here.
fn pass_at(stage: Stage, byte: u8) -> Pass
    ensures shallow { IsShallow result (depth_at stage) }
    ensures rows { (at : ℕ) (item text : List ℕ) → rows_at stage at item (byte ∷ text) ≡ passed result at item byte text }
{
    match stage {
        Stage::Opening => {
            if is_white(byte) {
                Pass::Taken(Stage::Opening)
            } else if byte == b'[' {
                Pass::Taken(Stage::First)
            } else {
                Pass::Wrong(Expected::Opening)
            }
        }
        Stage::First => {
            if is_white(byte) {
                Pass::Taken(Stage::First)
            } else if byte == b']' {
                Pass::Taken(Stage::Closing)
            } else {
                Pass::Item(Stage::Next)
            }
        }
        Stage::Next => Pass::Item(stage),
        Stage::Item(_) => Pass::Item(stage),
        Stage::Closing => {
            if is_white(byte) {
                Pass::Taken(Stage::Closing)
            } else {
                Pass::Wrong(Expected::End)
            }
        }
    }
}

/// How many bytes of the chunk stand before what belongs to an item, and where the reader then stands; or the fault. The first byte of
/// the chunk has this number in the text.
pub(crate) fn enter(stage: Stage, byte: u64, chunk: &[u8]) -> Result<(Stage, usize), RowFault>
    requires fits { byte + length chunk.now < 2 ^ 64 }
    requires depth { depth_at stage ≤ byte }
    ensures bound { IfOk result (λ entered. entered.1 ≤ length chunk.now) }
    ensures depth { IfOk result (λ entered. depth_at entered.0 ≤ byte) }
    ensures inside { IfOk result (λ entered. entered.1 < length chunk.now → IsTrue (is_inside entered.0)) }
    ensures rows { IfOk result (λ entered. (item tail : List ℕ) → rows_at stage byte item (chunk.now ++ tail)
        ≡ rows_at entered.0 (byte + entered.1) item (drop entered.1 chunk.now ++ tail)) }
    ensures err { IfErr result (λ fault. (item tail : List ℕ) → IsBroken fault (rows_at stage byte item (chunk.now ++ tail))) }
{
    let mut here = stage;
    for i in 0..chunk.len() {
        match pass_at(here, chunk[i]) {
            Pass::Taken(stage) => here = stage,
            Pass::Item(stage) => return Ok((stage, i)),
            Pass::Wrong(expected) => {
                return Err(RowFault::Unexpected {
                    byte: byte + i as u64,
                    expected,
                });
            }
        }
    }
    Ok((here, chunk.len()))
}

/// Whether the text may end where the reader stands, before the byte of this number.
pub(crate) fn check_end(stage: Stage, byte: u64) -> Result<(), RowFault>
    ensures { (item : List ℕ) → MatchResult result
        (λ _. rows_at stage byte item [] ≡ closed)
        (λ fault. IsBroken fault (rows_at stage byte item [])) }
{
    let expected = match stage {
        Stage::Closing => return Ok(()),
        Stage::Opening => Expected::Opening,
        Stage::First => Expected::Item,
        Stage::Next => Expected::Separator,
        Stage::Item(_) => Expected::Separator,
    };
    Err(RowFault::Unexpected { byte, expected })
}
