//! The verdict of the grants of a block.
ghost use Rattle.std.specs.Prelude.{◌≡◌, ◌≤◌, ◌↔◌, ℕ, List, length, IsTrue, IfSome};
ghost use Rattle.capspec.specs.Paths.{names_of};
ghost use Rattle.capffi.specs.Blocks.{IsBlock, bare_names};
ghost use Rattle.capffi.specs.ByBlock.{IsBlockJudged, IsBlockJudgedOf, IsFast, IsFastOf, Tells, TellsFast, alone};
ghost use Rattle.capgrant.specs.Question.{question as asked};

use crate::answering::tell_alone;
use crate::asking::{read_access, read_mode, read_path};
use crate::block::{BLOCK_VERSION, Block};
use crate::given::split_front;
use crate::judging::{Case, verdict_of};
use crate::passed::{Answer, Question};
use crate::plain::{MAX_FAST, is_plain_fast, plain, without_slash};
use crate::trouble::Trouble;
use capbits::Mode;
use capgrant::{Access, Attr, Verdict};
use capspec::TreePath;
use std::alloc::Global;

/// Tells the answer of a block, whatever the groups of the caller, where that is soon seen: where the grants up to the first that
/// allows, or all where none does, are for everybody. Else 0, and the whole verdict has to be asked for.
#[inline(always)]
pub(crate) fn fast_verdict(
    block: &Block,
    text: &[u8],
    path: &[u8],
    question: &Question,
    answer: &mut Answer,
) -> u32
    ensures { TellsFast block.now text.now path.now question.now answer.old answer.new result }
{
    let bare = without_slash(path);
    fast_bare(block, text, bare, question, answer)
}

// Tells the answer of a block to a question, where that is soon seen, by a path without a slash in front.
#[inline(always)]
fn fast_bare(
    block: &Block,
    text: &[u8],
    path: &[u8],
    question: &Question,
    answer: &mut Answer,
) -> u32
    ensures { TellsFast block.now text.now path.now question.now answer.old answer.new result }
{
    if is_first_for_one(block) {
        return 0;
    }
    if !is_one_for_all(block) || question.access > 1 {
        return fast_of_many(block, text, path, question, answer);
    }
    if path.len() > MAX_FAST || !is_block(block, text) {
        return 0;
    }
    match fast_of_one(block, text, path, question) {
        Some(rule) => tell_alone(rule, answer),
        None => 0,
    }
}

// The answer of one grant to a question, where that is soon seen: the number of the rule that it fails by, or 0 where it allows. The
// path's form is looked at last, when little else is left in registers.
#[inline(always)]
fn fast_of_one(block: &Block, text: &[u8], path: &[u8], question: &Question) -> Option<u8>
    requires whole { IsBlock block.now text.now }
    requires one { block.now.count ≡ 1 }
    ensures { IfSome result (λ rule. IsFast block.now text.now path.now question.now (alone rule)) }
{
    let rule = rule_of_one(block, text, path, question)?;
    if !is_plain_fast(path) {
        return None;
    }
    Some(rule)
}

// Tells the answer of any number of grants to a question, where that is soon seen. It stands apart from that of one grant on an access to
// read or to write, which takes fewer registers.
#[inline(never)]
fn fast_of_many(
    block: &Block,
    text: &[u8],
    path: &[u8],
    question: &Question,
    answer: &mut Answer,
) -> u32
    ensures { TellsFast block.now text.now path.now question.now answer.old answer.new result }
{
    if !is_block(block, text) {
        return 0;
    }
    if !is_plain_fast(path) {
        return 0;
    }
    fast_of_any(block, text, path, question, answer)
}

/// Whether the first grant is for one caller, so that it isn't seen soon what it allows.
#[inline(always)]
pub(crate) fn is_first_for_one(block: &Block) -> bool {
    block.entries[0].has_uid != 0
}

/// Whether there is one grant alone, for every file system and all groups, as most clients have it.
#[inline(always)]
pub(crate) fn is_one_for_all(block: &Block) -> bool
    ensures { IsTrue result → block.now.count ≡ 1 }
{
    block.count == 1 && block.entries[0].fs_len == 0 && block.entries[0].gid_count == 0
}

/// What the grants of a block say to a question.
#[tactic(auto, using(crate::proofs::Filled::said_of_text))]
pub(crate) fn judge_by(
    alloc: Global,
    block: &Block,
    text: &[u8],
    path: &[u8],
    groups: &[u32],
    question: &Question,
) -> Result<Verdict, Trouble>
    ensures { IsBlockJudged block.now text.now path.now groups.now question.now result }
{
    if !is_block(block, text) {
        return Err(Trouble::Block);
    }
    if groups.len() > 16 {
        return Err(Trouble::Groups);
    }
    match plain(path) {
        Some(bare) => judge_plain(block, text, bare, groups, question),
        None => judge_other(alloc, block, text, path, groups, question),
    }
}

// What the grants of a block say to a question, on a path in any form.
#[inline(never)]
#[tactic(auto, using(crate::proofs::Filled::said_of_text))]
fn judge_other(
    alloc: Global,
    block: &Block,
    text: &[u8],
    path: &[u8],
    groups: &[u32],
    question: &Question,
) -> Result<Verdict, Trouble>
    requires whole { IsBlock block.now text.now }
    requires few { length groups.now ≤ 16 }
    ensures { IsBlockJudged block.now text.now path.now groups.now question.now result }
{
    let path = read_path(alloc, path)?;
    judge_plain(block, text, bare_text(&path), groups, question)
}

/// The text of a path that was read, without the slash in front.
#[tactic(auto, using(crate::proofs::Filled::names_of_read))]
pub(crate) fn bare_text(path: &TreePath) -> &[u8]
    ensures { (bytes : List ℕ) → path.now ≡ names_of bytes → bare_names result.now ≡ path.now }
{
    split_front(path.as_bytes(), 1).1
}

// The rule that one grant fails by, for the names of a path without a slash in front.
#[inline(always)]
fn rule_of_one(block: &Block, text: &[u8], path: &[u8], question: &Question) -> Option<u8>
    requires whole { IsBlock block.now text.now }
    requires one { block.now.count ≡ 1 }
    ensures { IfSome result (λ rule. IsFastOf block.now text.now (bare_names path.now) question.now (alone rule)) }
{
    let mode = read_mode(question.mode)?;
    let access = read_access(question.access, question.number)?;
    if block.fs_len as usize > text.len() {
        return None;
    }
    let (fs, rest) = split_front(text, block.fs_len as usize);
    let case = case_of(fs, path, &[], question, mode, access);
    let rule = case.fast_alone(&block.entries[..block.count as usize], rest)?;
    Some(rule)
}

// What is told of any number of grants, for the names of a path without a slash in front.
#[inline(always)]
fn fast_of_any(
    block: &Block,
    text: &[u8],
    path: &[u8],
    question: &Question,
    answer: &mut Answer,
) -> u32
    requires { IsBlock block.now text.now }
    ensures { Tells (IsFastOf block.now text.now (bare_names path.now) question.now) answer.old answer.new result }
{
    let Some(mode) = read_mode(question.mode) else {
        return 0;
    };
    let Some(access) = read_access(question.access, question.number) else {
        return 0;
    };
    let (fs, rest) = split_front(text, block.fs_len as usize);
    let case = case_of(fs, path, &[], question, mode, access);
    case.fast_verdict(&block.entries[..block.count as usize], rest, answer)
}

// What is asked of each grant.
#[inline(always)]
fn case_of<'a>(
    fs: &'a [u8],
    path: &'a [u8],
    groups: &'a [u32],
    question: &Question,
    mode: Mode,
    access: Access,
) -> Case<'a>
    ensures { result ≡ asked fs.now (record { uid = question.now.uid; gid = question.now.gid; groups = groups.now }) (bare_names path.now) (record { uid = question.now.owner; gid = question.now.group; mode = mode }) access }
{
    Case {
        fs,
        path,
        groups,
        uid: question.uid,
        gid: question.gid,
        attr: Attr {
            uid: question.owner,
            gid: question.group,
            mode,
        },
        access,
    }
}

// What the grants of a block say to a question, on the names of a path.
#[inline(always)]
fn judge_plain(
    block: &Block,
    text: &[u8],
    path: &[u8],
    groups: &[u32],
    question: &Question,
) -> Result<Verdict, Trouble>
    requires { IsBlock block.now text.now }
    ensures { IsBlockJudgedOf block.now text.now (bare_names path.now) groups.now question.now result }
{
    let Some(mode) = read_mode(question.mode) else {
        return Err(Trouble::Mode);
    };
    let Some(access) = read_access(question.access, question.number) else {
        return Err(Trouble::Access);
    };
    let (fs, rest) = split_front(text, block.fs_len as usize);
    let case = case_of(fs, path, groups, question, mode, access);
    Ok(verdict_of(&case, &block.entries[..block.count as usize], rest))
}

/// Whether a block is one of this version, and its text is whole.
#[inline(always)]
pub(crate) fn is_block(block: &Block, text: &[u8]) -> bool
    ensures { IsTrue result ↔ IsBlock block.now text.now }
{
    block.version == BLOCK_VERSION && block.count <= 16 && block.text_len as usize <= text.len()
}
