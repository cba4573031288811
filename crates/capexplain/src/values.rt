//! The values that single words write.
ghost use Rattle.std.specs.Prelude.{◌≡◌, ◌^◌, IfOk, IfErr};
ghost use Rattle.texts.specs.declared.fault.LineFault.TheVariants as faults;
ghost use Rattle.capexplain.specs.Values.{Spells, SpellsNone, client_in, groups_in, ino_in, mode_in, number_below, number_in, open_mode_in, part_in};

use cap_text::read_caps;
use capbits::{CapSet, ClientId, Groups, Ino, Mode, Part, read_mode, read_u32, read_u64};
use capstep::OpenMode;
use texts::LineFault;

// The decimal number of 32 bits.
pub(crate) fn read_number(word: &[u8]) -> Result<u32, LineFault>
    ensures { result ≡ number_in word.now }
{
    read_u32(word).ok_or(LineFault::Number)
}

// The client with the decimal number of 32 bits.
#[tactic(auto, unfolding(crate::specs::Values::client_in))]
pub(crate) fn read_client(word: &[u8]) -> Result<ClientId, LineFault>
    ensures { result ≡ client_in word.now }
{
    Ok(ClientId(read_number(word)?))
}

// The inode with the decimal number of 64 bits.
#[tactic(auto, unfolding(crate::specs::Values::ino_in))]
pub(crate) fn read_ino(word: &[u8]) -> Result<Ino, LineFault>
    ensures { result ≡ ino_in word.now }
{
    Ok(Ino(read_long_number(word)?))
}

// The decimal number of 64 bits.
pub(crate) fn read_long_number(word: &[u8]) -> Result<u64, LineFault>
    ensures { result ≡ number_below (2 ^ 64) word.now }
{
    read_u64(word).ok_or(LineFault::Number)
}

// The mode that one to four octal digits write.
pub(crate) fn read_permissions(word: &[u8]) -> Result<Mode, LineFault>
    ensures { result ≡ mode_in word.now }
{
    read_mode(word).ok_or(LineFault::Mode)
}

// What an inode is opened for.
#[tactic(auto, unfolding(crate::specs::Values::open_mode_in))]
pub(crate) fn read_open_mode(word: &[u8]) -> Result<OpenMode, LineFault>
    ensures { result ≡ open_mode_in word.now }
{
    match word {
        b"r" => Ok(OpenMode::Read),
        b"w" => Ok(OpenMode::Write),
        b"rw" => Ok(OpenMode::ReadWrite),
        _ => Err(LineFault::Mode),
    }
}

// A part of what an inode keeps.
#[tactic(auto, unfolding(crate::specs::Values::part_in))]
pub(crate) fn read_part(word: &[u8]) -> Result<Part, LineFault>
    ensures { result ≡ part_in word.now }
{
    match word {
        b"A" => Ok(Part::A),
        b"L" => Ok(Part::L),
        b"X" => Ok(Part::X),
        b"F" => Ok(Part::F),
        _ => Err(LineFault::Part),
    }
}

// The set of caps that the word spells.
pub(crate) fn read_cap_set(word: &[u8]) -> Result<CapSet, LineFault>
    ensures ok { IfOk result (λ caps. Spells word.now caps) }
    ensures none { IfErr result (λ _. SpellsNone word.now) }
    ensures err { IfErr result (λ fault. fault ≡ faults.Caps) }
{
    match read_caps(word) {
        Ok(caps) => Ok(caps),
        Err(_) => Err(LineFault::Caps),
    }
}

// The group numbers between the commas, at most 16 of them, or none where the word is `-`.
#[tactic(auto, unfolding(crate::specs::Values::groups_in))]
pub(crate) fn read_groups(word: &[u8]) -> Result<Groups, LineFault>
    ensures { result ≡ groups_in word.now }
{
    let mut groups = Groups::new();
    if word == b"-".as_slice() {
        return Ok(groups);
    }
    for digits in word.split(|byte| *byte == b',') {
        let gid = read_number(digits)?;
        if groups.try_push(gid).is_err() {
            return Err(LineFault::Number);
        }
    }
    Ok(groups)
}
