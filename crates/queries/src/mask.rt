//! What a check asks for.
ghost use Rattle.std.specs.Prelude.{◌≡◌, ◌<◌, ◌++◌, IfOk, MatchOption, OnOk};
ghost use Rattle.queries.specs.declared.mask.Mask.{Mask as AMask};
ghost use Rattle.queries.specs.Checks.{texts_of};
ghost use Rattle.capgrant.specs.Masks.{asked_if};
ghost use Rattle.queries.specs.Masks.{AreNumbersOf, IsMaskOf, accesses_of, is_mask};

use crate::check::Check;
use capbits::read_u32;
use capgrant::Access;
use std::alloc::{AllocError, Global};

/// The bits of a check, and the uid and the gid that two of them ask to give the inode to.
#[derive(Clone, Copy)]
pub struct Mask {
    pub bits: u32,
    pub uid: u32,
    pub gid: u32,
}

/// The numbers of a check's mask, whatever its bits mean.
pub fn read_numbers(check: &Check<'_>) -> Option<Mask>
    ensures { MatchOption result ((mask : AMask) → ¬ AreNumbersOf (texts_of check.now) mask) (AreNumbersOf (texts_of check.now)) }
{
    let bits = read_u32(check.mask)?;
    let uid = read_u32(check.new_uid)?;
    let gid = read_u32(check.new_gid)?;
    Some(Mask { bits, uid, gid })
}

/// The mask of a check, if these are numbers, and each of its bits has a meaning.
pub fn read_mask(check: &Check<'_>) -> Option<Mask>
    ensures { MatchOption result ((mask : AMask) → ¬ IsMaskOf (texts_of check.now) mask) (IsMaskOf (texts_of check.now)) }
{
    let mask = read_numbers(check)?;
    if is_mask(mask.bits) { Some(mask) } else { None }
}

// Whether there is a bit, and none but those of accesses.
fn is_mask(bits: u32) -> bool
    ensures { result ≡ is_mask bits }
{
    bits > 0 && bits < 256 && bits / 4 % 4 == 0
}

/// The accesses that a mask asks for.
pub fn accesses(alloc: Global, mask: Mask) -> Result<Vec<Access>, AllocError>
    ensures { IfOk result (λ asked. asked.items ≡ accesses_of mask) }
{
    let mut asked = Vec::new(alloc);
    ask_if(&mut asked, mask.bits, 1, Access::Read)?;
    ask_if(&mut asked, mask.bits, 2, Access::Write)?;
    ask_if(&mut asked, mask.bits, 16, Access::Chown(mask.uid))?;
    ask_if(&mut asked, mask.bits, 32, Access::Chgrp(mask.gid))?;
    ask_if(&mut asked, mask.bits, 64, Access::SetVxattr)?;
    ask_if(&mut asked, mask.bits, 128, Access::Snapshot)?;
    Ok(asked)
}

// Asks for the access, where the bit is set.
fn ask_if(asked: &mut Vec<Access>, bits: u32, bit: u32, access: Access) -> Result<(), AllocError>
    requires { 0 < bit }
    ensures { OnOk result (asked.new.items ≡ asked.old.items ++ asked_if bits bit access) }
{
    if bits / bit % 2 == 1 {
        asked.push(access)?;
    }
    Ok(())
}
