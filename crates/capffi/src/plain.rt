//! Paths whose text needs no other form.
ghost use Rattle.std.specs.Prelude.{◌≡◌, ◌≢◌, ◌==◌, ◌<◌, ◌≤◌, ◌+◌, ◌-◌, ◌*◌, ◌||◌, if◌then◌else◌, ◌∷◌, false, count_by, IfSome, IsTrue, IsFalse, length};
ghost use Rattle.std.specs.Prelude.{slice_index, drop};
ghost use Rattle.capspec.specs.Paths.{are_few_and_short, has_double_slash, names_of};
ghost use Rattle.capffi.specs.Blocks.{bare_names};

use std::simd::prelude::*;

// How many bytes of a long path are looked at together.
const LONG_PIECE: usize = 64;

// How far one of these pieces stands behind the one before it: the last byte of each is the first of the next, so that each two that
// stand side by side are in one of them.
const LONG_STEP: usize = LONG_PIECE - 1;

/// How many bytes a path may have that is soon seen to be plain.
pub(crate) const MAX_FAST: usize = 2 * LONG_PIECE - 1;

// How many names a path may have, and how many bytes a name.
const MAX_NAMES: usize = 32;

const MAX_NAME: usize = 255;

/// The text of a path without the slash in front, where its names stand between single slashes, and are neither too many nor too
/// long. Another path has to be read.
#[inline(always)]
pub(crate) fn plain(path: &[u8]) -> Option<&[u8]>
    ensures { IfSome result (λ bare. (bare_names bare.now ≡ names_of path.now) × IsTrue (are_few_and_short (names_of path.now))) }
{
    let bare = without_slash(path);
    if is_plain(bare) { Some(bare) } else { None }
}

/// The text of a path without the slash in front. A second one there stays.
#[inline(always)]
#[tactic(auto, using(crate::proofs::Bare::names_behind))]
pub(crate) fn without_slash(path: &[u8]) -> &[u8]
    ensures { names_of result.now ≡ names_of path.now }
{
    if !path.is_empty() && path[0] == b'/' {
        &path[1..]
    } else {
        path
    }
}

// Whether the names of a path stand between its slashes, and are neither too many nor too long.
#[inline(always)]
fn is_plain(bare: &[u8]) -> bool
    ensures names { IsTrue result → bare_names bare.now ≡ names_of bare.now }
    ensures fit { IsTrue result → IsTrue (are_few_and_short (names_of bare.now)) }
{
    if is_short(bare) {
        is_parted(bare)
    } else {
        is_long_plain(bare)
    }
}

/// Whether a path is plain, where that is soon seen: not of more than `MAX_FAST` bytes, and, of those with more than 63, not of some with
/// 17 names and more and of none with 32.
#[inline(always)]
pub(crate) fn is_plain_fast(bare: &[u8]) -> bool
    ensures names { IsTrue result → bare_names bare.now ≡ names_of bare.now }
    ensures fit { IsTrue result → IsTrue (are_few_and_short (names_of bare.now)) }
{
    if is_short(bare) {
        return is_parted(bare);
    }
    bare.len() <= MAX_FAST && is_plain_at_ends(bare)
}

// Whether a path is plain, where two pieces cover it.
#[inline(always)]
fn is_plain_at_ends(bare: &[u8]) -> bool
    requires more { 64 ≤ length bare.now }
    requires few { length bare.now ≤ 127 }
    ensures names { IsTrue result → bare_names bare.now ≡ names_of bare.now }
    ensures fit { IsTrue result → IsTrue (are_few_and_short (names_of bare.now)) }
{
    if bare[bare.len() - 1] == b'/' {
        return false;
    }
    let (is_found, slashes) = look_at_ends(bare);
    if is_found {
        return false;
    }
    slashes < 31
}

// Whether two slashes stand side by side, as if there were one in front too, and how many there are at most, but for the last byte.
#[inline(always)]
fn look_at_ends(path: &[u8]) -> (bool, u32)
    requires more { 64 ≤ length path.now }
    requires few { length path.now ≤ 127 }
    ensures lone { result.0 ≡ has_double_slash (47 ∷ path.now) }
    ensures count { count_by (λ b. b == 47) path.now ≤ result.1 + 1 }
{
    let (in_front, first) = look_from(path, 0, true);
    let (at_back, last) = look_from(path, path.len() - LONG_PIECE, false);
    (in_front | at_back, first + last)
}

// Whether the names of a path stand between its slashes.
#[inline(always)]
#[tactic(auto, using(crate::proofs::Bare::no_bytes, crate::proofs::Bare::parted_behind))]
fn is_parted(bare: &[u8]) -> bool
    requires { length bare.now ≤ 63 }
    ensures { IsTrue result → bare_names bare.now ≡ names_of bare.now }
{
    if bare.is_empty() {
        return true;
    }
    let last = bare[bare.len() - 1];
    if last == b'/' {
        return false;
    }
    !has_double_slash(bare)
}

// Whether two slashes stand side by side, as if there were one in front too.
#[inline(always)]
fn has_double_slash(path: &[u8]) -> bool
    requires some { 0 < length path.now }
    requires few { length path.now ≤ 63 }
    ensures { result ≡ has_double_slash (47 ∷ path.now) }
{
    match path.len() {
        0..=15 => has_double_slash_in_few(path),
        16..=31 => look_at_ends_by::<16>(path),
        _ => look_at_ends_by::<32>(path),
    }
}

// Whether two slashes stand side by side, as if there were one in front too, where two pieces of so many bytes cover the path.
#[inline(always)]
fn look_at_ends_by<const PIECE: usize>(path: &[u8]) -> bool
    requires piece { PIECE ≤ 64 }
    requires more { PIECE ≤ length path.now }
    requires few { length path.now < 2 * PIECE }
    ensures { result ≡ has_double_slash (47 ∷ path.now) }
{
    let in_front = look_by::<PIECE>(path, 0, true);
    in_front | look_by::<PIECE>(path, path.len() - PIECE, false)
}

// Whether two slashes stand side by side, as if there were one in front too, byte by byte.
#[inline(always)]
#[tactic(auto, using(crate::proofs::Bare::first_slash, crate::proofs::Bare::no_first_slash))]
fn has_double_slash_in_few(path: &[u8]) -> bool
    requires { 0 < length path.now }
    ensures { result ≡ has_double_slash (47 ∷ path.now) }
{
    if path[0] == b'/' {
        return true;
    }
    has_pair(path)
}

// Whether two slashes stand side by side, of which one has an odd place.
#[inline(always)]
fn has_pair(path: &[u8]) -> bool
    ensures { result ≡ has_double_slash path.now }
{
    for pair in 0..path.len() / 2 {
        if is_beside_slash(path, 2 * pair + 1) {
            return true;
        }
    }
    false
}

// Whether a byte is a slash, and so is the one before it or behind it.
#[inline(always)]
#[tactic(auto, using(capspec::proofs::OneText::pair_step, capspec::proofs::OneText::no_pair))]
fn is_beside_slash(path: &[u8], place: usize) -> bool
    requires behind { 0 < place }
    requires inside { place < length path.now }
    ensures { has_double_slash (drop (place - 1) path.now) ≡ (result || has_double_slash (drop (place + 1) path.now)) }
{
    if path[place] != b'/' {
        return false;
    }
    is_double_slash(path, place) || (place + 1 < path.len() && is_double_slash(path, place + 1))
}

// Whether the bytes before a place and at it are slashes.
#[inline(always)]
#[tactic(auto, using(capspec::proofs::OneText::pair_step))]
fn is_double_slash(path: &[u8], place: usize) -> bool
    requires behind { 0 < place }
    requires inside { place < length path.now }
    ensures { has_double_slash (drop (place - 1) path.now) ≡ (result || has_double_slash (drop place path.now)) }
{
    path[place - 1] == b'/' && path[place] == b'/'
}

// Whether one of the slashes of a piece stands behind another, which may be one before the piece. They are the bits of a number.
#[inline(always)]
fn look_by<const PIECE: usize>(path: &[u8], start: usize, is_behind_slash: bool) -> bool
    requires some { 0 < PIECE }
    requires piece { PIECE ≤ 64 }
    requires inside { start + PIECE ≤ length path.now }
    ensures { (result || has_double_slash (drop (start + (PIECE - 1)) path.now)) ≡ has_double_slash (if is_behind_slash then 47 ∷ drop start path.now else drop start path.now) }
{
    let bytes = Simd::<u8, PIECE>::from_slice(&path[start..]);
    let slashes = bytes.simd_eq(Simd::splat(b'/')).to_bitmask();
    let behind = slashes
        .wrapping_add(slashes)
        .wrapping_add(u64::from(is_behind_slash));
    slashes & behind != 0
}

// Whether a text is too short to have too many names, as each has a slash beside it, or too long a name.
fn is_short(path: &[u8]) -> bool
    ensures fit { IsTrue result → IsTrue (are_few_and_short (names_of path.now)) }
    ensures less { IsTrue result → length path.now ≤ 63 }
    ensures more { IsFalse result → 64 ≤ length path.now }
{
    path.len() < 64
}

// Whether a path is plain that is too long for its length to tell how many names it has.
#[inline(always)]
#[tactic(auto, using(crate::proofs::Bare::parted))]
fn is_long_plain(bare: &[u8]) -> bool
    requires { 64 ≤ length bare.now }
    ensures names { IsTrue result → bare_names bare.now ≡ names_of bare.now }
    ensures fit { IsTrue result → IsTrue (are_few_and_short (names_of bare.now)) }
{
    if bare[0] == b'/' || bare[bare.len() - 1] == b'/' {
        return false;
    }
    match count_lone_slashes(bare) {
        Some(count) => is_in_few_parts(bare, count) || has_fit_names(bare),
        None => false,
    }
}

// Whether a text has no room for too long a name, and no slashes between too many. At most `count` and one more were seen, of which
// some may have been counted twice.
#[inline(always)]
#[tactic(auto, using(crate::proofs::Bare::few_parts))]
fn is_in_few_parts(bare: &[u8], count: usize) -> bool
    requires first { slice_index bare.now 0 ≢ 47 }
    requires count { count_by (λ b. b == 47) bare.now ≤ count + 1 }
    ensures { IsTrue result → IsTrue (are_few_and_short (names_of bare.now)) }
{
    bare.len() <= MAX_NAME
        && (count < MAX_NAMES - 1 || usize::from(count_slashes(bare)) < MAX_NAMES)
}

// How many slashes a text has. The count is a byte, so that many bytes at once are counted.
#[inline(never)]
fn count_slashes(text: &[u8]) -> u8
    requires { length text.now ≤ 255 }
    ensures { result ≡ count_by (λ b. b == 47) text.now }
{
    let mut slashes = 0;
    for byte in text {
        slashes += u8::from(*byte == b'/');
    }
    slashes
}

// How many slashes a long path has at most, but for its last byte, where no two stand side by side.
#[inline(always)]
fn count_lone_slashes(path: &[u8]) -> Option<usize>
    requires { 64 ≤ length path.now }
    ensures { IfSome result (λ count. (has_double_slash path.now ≡ false) × (count_by (λ b. b == 47) path.now ≤ count + 1)) }
{
    let mut count = 0;
    for piece in 0..(path.len() - 1) / LONG_STEP {
        let (is_found, slashes) = look_from(path, LONG_STEP * piece, false);
        if is_found {
            return None;
        }
        count += slashes as usize;
    }
    let (is_found, slashes) = look_from(path, path.len() - LONG_PIECE, false);
    if is_found {
        return None;
    }
    Some(count + slashes as usize)
}

// Whether one of the slashes of a piece of a long path stands behind another, which may be one before the piece, and how many there
// are. They are the bits of a number.
#[inline(always)]
fn look_from(path: &[u8], start: usize, is_behind_slash: bool) -> (bool, u32)
    requires { start + 64 ≤ length path.now }
    ensures lone { (result.0 || has_double_slash (drop (start + 63) path.now)) ≡ has_double_slash (if is_behind_slash then 47 ∷ drop start path.now else drop start path.now) }
    ensures count { count_by (λ b. b == 47) (drop start path.now) ≤ result.1 + count_by (λ b. b == 47) (drop (start + 63) path.now) }
    ensures few { result.1 ≤ 64 }
{
    let bytes = u8x64::from_slice(&path[start..]);
    let slashes = bytes.simd_eq(u8x64::splat(b'/')).to_bitmask();
    let behind = slashes
        .wrapping_add(slashes)
        .wrapping_add(u64::from(is_behind_slash));
    (slashes & behind != 0, slashes.count_ones())
}

// Whether a path has no more and no longer names than there may be, byte by byte.
#[inline(never)]
#[tactic(auto, using(crate::proofs::Bare::fit_path, crate::proofs::Bare::fits_slash, crate::proofs::Bare::fits_other))]
fn has_fit_names(path: &[u8]) -> bool
    ensures { IsTrue result → IsTrue (are_few_and_short (names_of path.now)) }
{
    // How many names may come behind this one, and how many more bytes of this one.
    let (mut names, mut bytes) = (MAX_NAMES - 1, MAX_NAME);
    for byte in path {
        if *byte == b'/' {
            if names == 0 {
                return false;
            }
            names -= 1;
            bytes = MAX_NAME;
            continue;
        }
        if bytes == 0 {
            return false;
        }
        bytes -= 1;
    }
    true
}
