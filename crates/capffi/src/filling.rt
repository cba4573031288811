//! Grants are read, and put into a block.
ghost use Rattle.std.specs.Prelude.{◌≡◌, ◌==◌, ◌≤◌, ◌++◌, not, length, take, All, MatchResult, IfOk};
ghost use Rattle.capspec.specs.Grants.{Reads};
ghost use Rattle.capffi.specs.Blocks.{flags_of, unless_zero};
ghost use Rattle.capffi.specs.Filling.{AreEntriesOf, CanBeWritten, IsEntryOf, IsPutInBlock, IsReadTrouble, IsReady, fs_text, texts_of};

use crate::asking::read_text;
use crate::block::{BLOCK_VERSION, Block, Entry};
use crate::texts::put;
use crate::trouble::{OK, Trouble};
use capspec::{Flags4, FsName, Grant};
use std::alloc::{AllocError, Global};

/// What is to stand in a block.
#[derive(Drop)]
pub(crate) struct Ready {
    entries: Vec<Entry>,
    // The name of the file system, and behind it the texts of the entries.
    text: Vec<u8>,
    fs_len: usize,
}

/// The grants of a text, and the name of a file system, ready to be put into a block.
#[tactic(auto, using(crate::proofs::Filled::read_can))]
pub(crate) fn prepare(alloc: Global, text: &[u8], fs: &[u8]) -> Result<Ready, Trouble>
    ensures { MatchResult result (IsReady text.now fs.now) (IsReadTrouble text.now fs.now) }
{
    let grants = read_text(alloc, text)?;
    if FsName::read(fs).is_none() {
        return Err(Trouble::Fs);
    }
    match gather(alloc, grants.as_slice(), fs) {
        Ok(ready) => Ok(ready),
        Err(AllocError) => Err(Trouble::Memory),
    }
}

// The entries of grants, and their texts behind the name of the file system.
#[tactic(auto, using(crate::proofs::Filled::text_more, crate::proofs::Filled::entries_more))]
fn gather(alloc: Global, grants: &[Grant], fs: &[u8]) -> Result<Ready, AllocError>
    requires { All CanBeWritten grants.now }
    ensures { IfOk result (λ ready. (ready.fs_len ≡ length fs.now) × (ready.text.items ≡ fs.now ++ texts_of grants.now) × AreEntriesOf ready.entries.items grants.now) }
{
    let mut entries = Vec::new(alloc);
    let mut text = Vec::from_slice(alloc, fs)?;
    for grant in grants {
        entries.push(entry_of(grant))?;
        text.extend_from_slice(grant.path.as_bytes())?;
        text.extend_from_slice(fs_text(grant))?;
    }
    Ok(Ready {
        entries,
        text,
        fs_len: fs.len(),
    })
}

/// Puts what is ready into a block, if the text fits. The status is that of the call, and `len` how long the text is.
#[tactic(auto, using(crate::proofs::Filled::no_room))]
pub(crate) fn put_block(ready: &Ready, block: &mut Block, text: &mut [u8], len: &mut u64) -> u32
    requires { length ready.now.entries.items ≤ 16 }
    ensures { IsPutInBlock ready.now block.old block.new text.old text.new len.new result }
{
    let status = put(ready.text.as_slice(), text, len);
    if status != OK {
        return status;
    }
    block.version = BLOCK_VERSION;
    block.count = ready.entries.len() as u32;
    block.text_len = ready.text.len() as u64;
    block.fs_len = ready.fs_len as u64;
    put_entries(ready.entries.as_slice(), block.entries.as_mut_slice());
    OK
}

// Puts entries at the front of others.
fn put_entries(entries: &[Entry], room: &mut [Entry])
    requires { length entries.now ≤ length room.old }
    ensures { take (length entries.now) room.new ≡ entries.now }
{
    room[..entries.len()].copy_from_slice(entries);
}

// The entry of a grant.
#[tactic(auto, using(crate::proofs::Filled::entry_means))]
fn entry_of(grant: &Grant) -> Entry
    requires { CanBeWritten grant.now }
    ensures { IsEntryOf result grant.now }
{
    let gids = grant.gids.as_slice();
    let (has_uid, uid) = uid_numbers(grant.uid);
    Entry {
        path_len: grant.path.as_bytes().len() as u64,
        fs_len: fs_text(grant).len() as u64,
        gid_count: gids.len() as u64,
        flags: flags_number(grant.flags),
        has_uid,
        uid,
        root_squash: number_of(grant.root_squash),
        gids: padded(gids),
    }
}

// The name of the file system that a grant is for, or nothing where it is for each.
fn fs_text(grant: &Grant) -> &[u8]
    ensures { result.now ≡ fs_text grant.now.fsname }
{
    match &grant.fsname {
        Some(name) => name.as_bytes(),
        None => &[],
    }
}

// Whether there is a uid, and which.
fn uid_numbers(uid: Option<u32>) -> (u32, u32)
    ensures { unless_zero result.0 result.1 ≡ uid }
{
    match uid {
        Some(uid) => (1, uid),
        None => (0, 0),
    }
}

// A number that is 0 where something is not so.
fn number_of(is_so: bool) -> u32
    ensures { not (result == 0) ≡ is_so }
{
    if is_so { 1 } else { 0 }
}

// The number of the flags.
#[tactic(auto, unfolding(crate::specs::Blocks::flags_of))]
fn flags_number(flags: Flags4) -> u32
    ensures { flags_of result ≡ flags }
{
    match flags {
        Flags4::R => 0,
        Flags4::Rw => 1,
        Flags4::Rwp => 2,
        Flags4::Rws => 3,
        Flags4::Rwps => 4,
    }
}

// Groups, and zeros behind them.
fn padded(gids: &[u32]) -> [u32; 16]
    requires { length gids.now ≤ 16 }
    ensures { take (length gids.now) result ≡ gids.now }
{
    let mut padded = [0; 16];
    padded[..gids.len()].copy_from_slice(gids);
    padded
}
