//! The words for what an MDS is asked for, several accesses at once.
ghost use Rattle.std.specs.Prelude.{◌≡◌, Some, MatchOption, option_map};
ghost use Rattle.texts.specs.declared.mds_asked.MdsAccess.{MdsAccess as AnAccess};
ghost use Rattle.queries.specs.MdsWords.{IsSeveral, mask_texts, mask_texts_of};

use crate::cuts::{behind_front, cut_first};
use capbits::read_u32;
use texts::MdsAccess;

// The numbers of a mask, each as it stands in its word.
#[derive(Clone, Copy)]
struct MaskTexts<'a> {
    bits: &'a [u8],
    uid: &'a [u8],
    gid: &'a [u8],
}

/// What several accesses at once a word names: `readwrite`, or `mask:BITS:UID:GID` with decimal numbers of 32 bits.
pub(crate) fn read_several(text: &[u8]) -> Option<MdsAccess>
    ensures { MatchOption result ((access : AnAccess) → ¬ IsSeveral text.now access) (IsSeveral text.now) }
{
    if text == b"readwrite".as_slice() {
        return Some(MdsAccess::ReadWrite);
    }
    let texts = mask_texts(text)?;
    let bits = read_u32(texts.bits)?;
    let uid = read_u32(texts.uid)?;
    let gid = read_u32(texts.gid)?;
    Some(MdsAccess::Mask { bits, uid, gid })
}

// The parts of a word for a mask, if it is one.
fn mask_texts(text: &[u8]) -> Option<MaskTexts<'_>>
    ensures { option_map mask_texts_of result ≡ mask_texts text.now }
{
    let numbers = behind_front(text, b"mask:")?;
    let (bits, ids) = cut_first(numbers, b":")?;
    let (uid, gid) = cut_first(ids, b":")?;
    Some(MaskTexts { bits, uid, gid })
}
