//! The verdict of the grants of a block on the mask of a server, which may ask for several accesses.
ghost use Rattle.std.specs.Prelude.{◌≡◌, ◌<◌, ◌%◌, ℕ, List, [], ◌∷◌, IfSome, IsTrue, fold};
ghost use Rattle.capgrant.specs.Masks.{is_known, asked_if};
ghost use Rattle.capgrant.specs.Question.{question};
ghost use Rattle.capffi.specs.Blocks.{IsBlock, bare_names};
ghost use Rattle.capffi.specs.ByBlock.{Tells, alone};
ghost use Rattle.capffi.specs.ByMask.{IsFastOn, IsFastToMask, IsMaskJudged, IsMaskJudgedOf, TellsFastToMask, access_number, accesses_of, is_denied};
ghost use Rattle.capffi.specs.ByMask.{mask_verdict_next, mask_verdict_of, verdict_on};

use crate::answering::tell_alone;
use crate::asking::read_path;
use crate::block::Block;
use crate::by_block::{bare_text, is_block, is_first_for_one, is_one_for_all};
use crate::given::split_front;
use crate::judging::{Case, verdict_of};
use crate::passed::{Answer, Check};
use crate::plain::{MAX_FAST, is_plain_fast, plain, without_slash};
use crate::trouble::Trouble;
use capbits::Mode;
use capgrant::{Access, Attr, Verdict};
use std::alloc::Global;

/// An access, and the verdict on it.
#[derive(Drop)]
pub(crate) struct MaskVerdict {
    pub(crate) access: Access,
    pub(crate) verdict: Verdict,
}

// What is asked of a block.
#[derive(Drop)]
struct Asker<'a> {
    block: &'a Block,
    text: &'a [u8],
    // Without a slash in front.
    path: &'a [u8],
    groups: &'a [u32],
    check: &'a Check,
}

/// Tells the answer of a block to a mask that is to read or to write, whatever the groups of the caller, where that is soon seen: where
/// the grants up to the first that allows, or all where none does, are for everybody. Else 0, and the whole verdict has to be asked for.
#[inline(always)]
pub(crate) fn fast_verdict_mask(
    block: &Block,
    text: &[u8],
    path: &[u8],
    check: &Check,
    answer: &mut Answer,
) -> u32
    ensures { TellsFastToMask block.now text.now path.now check.now answer.old answer.new result }
{
    let bare = without_slash(path);
    fast_bare(block, text, bare, check, answer)
}

// Tells the answer of a block to a mask, where that is soon seen, by a path without a slash in front.
#[inline(always)]
fn fast_bare(block: &Block, text: &[u8], path: &[u8], check: &Check, answer: &mut Answer) -> u32
    ensures { TellsFastToMask block.now text.now path.now check.now answer.old answer.new result }
{
    if is_first_for_one(block) {
        return 0;
    }
    if !is_one_for_all(block) {
        return fast_of_many(block, text, path, check, answer);
    }
    let Some(access) = frequent_access(check) else {
        return 0;
    };
    if path.len() > MAX_FAST || !is_block(block, text) {
        return 0;
    }
    match fast_of_one(block, text, path, check, access) {
        Some(rule) => tell_alone(rule, answer),
        None => 0,
    }
}

// The answer of one grant to a mask, where that is soon seen: the number of the rule that it fails by, or 0 where it allows. The path's
// form is looked at last, when little else is left in registers.
#[inline(always)]
fn fast_of_one(block: &Block, text: &[u8], path: &[u8], check: &Check, access: Access) -> Option<u8>
    requires whole { IsBlock block.now text.now }
    requires one { block.now.count ≡ 1 }
    requires known { IsTrue (is_known check.now.mask) }
    requires asked { accesses_of check.now ≡ access ∷ [] }
    ensures { IfSome result (λ rule. IsFastToMask block.now text.now path.now check.now (alone rule)) }
{
    let rule = rule_of_one(block, text, path, check, access)?;
    if !is_plain_fast(path) {
        return None;
    }
    Some(rule)
}

// Tells the answer of any number of grants to a mask, where that is soon seen. It stands apart from that of one grant, which takes fewer
// registers. What is passed on is passed as it came, so that the one goes over into the other.
#[inline(never)]
fn fast_of_many(block: &Block, text: &[u8], path: &[u8], check: &Check, answer: &mut Answer) -> u32
    ensures { TellsFastToMask block.now text.now path.now check.now answer.old answer.new result }
{
    let Some(access) = frequent_access(check) else {
        return 0;
    };
    if !is_block(block, text) {
        return 0;
    }
    if !is_plain_fast(path) {
        return 0;
    }
    fast_of_any(block, text, path, check, access, answer)
}

// The rule that one grant fails by, for the names of a path without a slash in front.
#[inline(always)]
fn rule_of_one(block: &Block, text: &[u8], path: &[u8], check: &Check, access: Access) -> Option<u8>
    requires whole { IsBlock block.now text.now }
    requires one { block.now.count ≡ 1 }
    ensures { IfSome result (λ rule. IsFastOn block.now text.now (bare_names path.now) check.now access (alone rule)) }
{
    if block.fs_len as usize > text.len() {
        return None;
    }
    let (fs, rest) = split_front(text, block.fs_len as usize);
    let case = case_of(fs, path, &[], check, access);
    let rule = case.fast_alone(&block.entries[..block.count as usize], rest)?;
    Some(rule)
}

// What is told of any number of grants, for the names of a path without a slash in front.
#[inline(always)]
fn fast_of_any(
    block: &Block,
    text: &[u8],
    path: &[u8],
    check: &Check,
    access: Access,
    answer: &mut Answer,
) -> u32
    requires { IsBlock block.now text.now }
    ensures { Tells (IsFastOn block.now text.now (bare_names path.now) check.now access) answer.old answer.new result }
{
    let (fs, rest) = split_front(text, block.fs_len as usize);
    let case = case_of(fs, path, &[], check, access);
    case.fast_verdict(&block.entries[..block.count as usize], rest, answer)
}

/// What the grants of a block say to a mask: the first of its accesses that is denied, or else the last.
#[tactic(auto, using(crate::proofs::Masks::said_to_mask))]
pub(crate) fn judge_mask(
    alloc: Global,
    block: &Block,
    text: &[u8],
    path: &[u8],
    groups: &[u32],
    check: &Check,
) -> Result<MaskVerdict, Trouble>
    ensures { IsMaskJudged block.now text.now path.now groups.now check.now result }
{
    if !is_block(block, text) {
        return Err(Trouble::Block);
    }
    match plain(path) {
        Some(bare) => judge_bare(block, text, bare, groups, check),
        None => judge_other(alloc, block, text, path, groups, check),
    }
}

// What the grants of a block say to a mask, on a path in any form.
#[inline(never)]
#[tactic(auto, using(crate::proofs::Masks::said_to_mask))]
fn judge_other(
    alloc: Global,
    block: &Block,
    text: &[u8],
    path: &[u8],
    groups: &[u32],
    check: &Check,
) -> Result<MaskVerdict, Trouble>
    requires { IsBlock block.now text.now }
    ensures { IsMaskJudged block.now text.now path.now groups.now check.now result }
{
    let path = read_path(alloc, path)?;
    judge_bare(block, text, bare_text(&path), groups, check)
}

// What the grants of a block say to a mask, on a path without a slash in front.
#[tactic(auto, using(crate::proofs::Masks::asks_nothing))]
fn judge_bare(
    block: &Block,
    text: &[u8],
    path: &[u8],
    groups: &[u32],
    check: &Check,
) -> Result<MaskVerdict, Trouble>
    requires { IsBlock block.now text.now }
    ensures { IsMaskJudgedOf block.now text.now (bare_names path.now) groups.now check.now result }
{
    if !is_known(check.mask) {
        return Err(Trouble::Access);
    }
    let asker = Asker {
        block,
        text,
        path,
        groups,
        check,
    };
    match asker.reported() {
        Some(reported) => Ok(reported),
        None => Err(Trouble::Access),
    }
}

impl Asker<'_> {
    // What is told of the accesses of the mask. Of one alone it is the verdict.
    #[tactic(auto, using(crate::proofs::Masks::one_mask_verdict))]
    fn reported(&self) -> Option<MaskVerdict>
        requires { IsBlock self.now.block.now self.now.text.now }
        ensures { result ≡ mask_verdict_of (verdict_on self.now.block.now self.now.text.now (bare_names self.now.path.now) self.now.groups.now self.now.check.now) (accesses_of self.now.check.now) }
    {
        match frequent_access(self.check) {
            Some(access) => Some(MaskVerdict {
                access,
                verdict: self.verdict(access),
            }),
            None => self.ask_all(),
        }
    }

    // What is told of the accesses of the mask, which are asked for one after the other.
    fn ask_all(&self) -> Option<MaskVerdict>
        requires { IsBlock self.now.block.now self.now.text.now }
        ensures { result ≡ mask_verdict_of (verdict_on self.now.block.now self.now.text.now (bare_names self.now.path.now) self.now.groups.now self.now.check.now) (accesses_of self.now.check.now) }
    {
        let read = self.ask(None, 1, Access::Read);
        let written = self.ask(read, 2, Access::Write);
        let given = self.ask(written, 16, Access::Chown(self.check.new_uid));
        let grouped = self.ask(given, 32, Access::Chgrp(self.check.new_gid));
        let set = self.ask(grouped, 64, Access::SetVxattr);
        self.ask(set, 128, Access::Snapshot)
    }

    // What is told with one access more, where the mask has its bit.
    #[tactic(auto, using(crate::proofs::Masks::not_asked, crate::proofs::Masks::not_judged, crate::proofs::Masks::judged))]
    fn ask(&self, reported: Option<MaskVerdict>, bit: u32, access: Access) -> Option<MaskVerdict>
        requires whole { IsBlock self.now.block.now self.now.text.now }
        requires some { 0 < bit }
        ensures { result ≡ fold (mask_verdict_next (verdict_on self.now.block.now self.now.text.now (bare_names self.now.path.now) self.now.groups.now self.now.check.now)) reported (asked_if self.now.check.now.mask bit access) }
    {
        if self.check.mask / bit % 2 != 1 {
            return reported;
        }
        if is_denied(&reported) {
            return reported;
        }
        Some(MaskVerdict {
            access,
            verdict: self.verdict(access),
        })
    }

    // The verdict on an access.
    fn verdict(&self, access: Access) -> Verdict
        requires { IsBlock self.now.block.now self.now.text.now }
        ensures { result ≡ verdict_on self.now.block.now self.now.text.now (bare_names self.now.path.now) self.now.groups.now self.now.check.now access }
    {
        let (fs, rest) = split_front(self.text, self.block.fs_len as usize);
        let case = case_of(fs, self.path, self.groups, self.check, access);
        verdict_of(
            &case,
            &self.block.entries[..self.block.count as usize],
            rest,
        )
    }
}

// What is asked of each grant.
#[inline(always)]
fn case_of<'a>(
    fs: &'a [u8],
    path: &'a [u8],
    groups: &'a [u32],
    check: &Check,
    access: Access,
) -> Case<'a>
    ensures { result ≡ question fs.now (record { uid = check.now.uid; gid = check.now.gid; groups = groups.now }) (bare_names path.now) (record { uid = check.now.owner; gid = check.now.group; mode = check.now.mode % 4096 }) access }
{
    Case {
        fs,
        path,
        groups,
        uid: check.uid,
        gid: check.gid,
        attr: Attr {
            uid: check.owner,
            gid: check.group,
            mode: mode_of(check.mode),
        },
        access,
    }
}

// The permission bits of a mode, which may have the inode's kind in front.
#[inline(always)]
fn mode_of(mode: u32) -> Mode
    ensures { result ≡ mode % 4096 }
{
    Mode::new((mode % 4096) as u16).unwrap()
}

// Whether an access was denied.
#[inline(always)]
fn is_denied(reported: &Option<MaskVerdict>) -> bool
    ensures { result ≡ is_denied reported.now }
{
    match reported {
        Some(reported) => matches!(&reported.verdict, Verdict::Denied { .. }),
        None => false,
    }
}

// Whether a mask has no bits but those of accesses.
#[inline(always)]
fn is_known(mask: u32) -> bool
    ensures { result ≡ is_known mask }
{
    mask < 256 && mask / 4 % 4 == 0
}

// The access of a mask that asks for one alone, which many requests do.
#[inline(always)]
#[tactic(auto, using(crate::proofs::Masks::to_read, crate::proofs::Masks::to_write))]
fn frequent_access(check: &Check) -> Option<Access>
    ensures { IfSome result (λ access. IsTrue (is_known check.now.mask) × (accesses_of check.now ≡ access ∷ [])) }
{
    if check.mask == 0 || check.mask > 2 {
        return None;
    }
    if check.mask == 1 {
        Some(Access::Read)
    } else {
        Some(Access::Write)
    }
}

/// The number of an access.
pub(crate) fn access_number(access: Access) -> u32
    ensures { result ≡ access_number access }
{
    match access {
        Access::Read => 0,
        Access::Write => 1,
        Access::SetVxattr => 2,
        Access::Snapshot => 3,
        Access::Chmod => 4,
        Access::Chown(_) => 5,
        Access::Chgrp(_) => 6,
    }
}
