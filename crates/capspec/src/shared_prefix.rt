//! How far a path's text begins with the names of another path.
ghost use Rattle.std.specs.Prelude.{◌≡◌, ◌↔◌, ◌+◌, ◌<◌, ◌≤◌, ◌∷◌, ℕ, List, IsTrue, length, map, take, drop};
ghost use Rattle.capspec.specs.Paths.{slashed};
ghost use Rattle.capspec.specs.SharedPrefix.{Begins, IsSharedPrefix, ShareFirst};

/// How many of a path's first names a text begins with, and how many bytes these take with a slash before each.
#[derive(Clone, Copy, Default)]
pub struct SharedPrefix {
    pub(crate) count: usize,
    pub(crate) size: usize,
}

/// None of the names, and no byte.
pub(crate) const NOTHING_SHARED: SharedPrefix = SharedPrefix { count: 0, size: 0 };

/// How far the text begins with the names, where that is known of another text, with which it shares its first bytes: these are not
/// compared again.
pub(crate) fn shared_prefix_in(
    names: &[&[u8]],
    text: &[u8],
    known: SharedPrefix,
    shared: usize,
) -> SharedPrefix
    requires { (other : List ℕ) × IsSharedPrefix (map (λ name. name.now) names.now) other known × ShareFirst other text.now shared }
    ensures { IsSharedPrefix (map (λ name. name.now) names.now) text.now result }
{
    if known.size > shared {
        return go_on(names, text, within(names, known.count, shared));
    }
    // Where the next name ends before the texts differ, it is in neither.
    if known.count < names.len() && names[known.count].len() < shared - known.size {
        return known;
    }
    go_on(names, text, known)
}

// As many of the first names as take at most so many bytes.
fn within(names: &[&[u8]], most: usize, bytes: usize) -> SharedPrefix
    requires { most ≤ length names.now }
    ensures count { result.count ≤ most }
    ensures fits { result.size ≤ bytes }
    ensures size { result.size ≡ length (slashed (take result.count (map (λ name. name.now) names.now))) }
{
    let mut at = NOTHING_SHARED;
    while at.count < most {
        let len = names[at.count].len();
        if bytes - at.size <= len {
            return at;
        }
        at = SharedPrefix {
            count: at.count + 1,
            size: at.size + 1 + len,
        };
    }
    at
}

/// How far the text begins with the names, where it begins with those counted already.
pub(crate) fn go_on(names: &[&[u8]], text: &[u8], from: SharedPrefix) -> SharedPrefix
    requires { Begins (map (λ name. name.now) names.now) text.now from }
    ensures { IsSharedPrefix (map (λ name. name.now) names.now) text.now result }
{
    let mut at = from;
    while at.count < names.len() {
        let name = names[at.count];
        if !has_name(text, at.size, name) {
            return at;
        }
        at = SharedPrefix {
            count: at.count + 1,
            size: at.size + 1 + name.len(),
        };
    }
    at
}

// Whether a slash and the name stand at this place of the text.
fn has_name(text: &[u8], at: usize, name: &[u8]) -> bool
    requires { at ≤ length text.now }
    ensures { IsTrue result ↔ (take (length name.now + 1) (drop at text.now) ≡ 47 ∷ name.now) }
{
    let rest = &text[at..];
    match rest.split_first() {
        Some((slash, behind)) => *slash == b'/' && behind.starts_with(name),
        None => false,
    }
}

/// How many first bytes two texts share.
pub(crate) fn count_shared(one: &[u8], other: &[u8]) -> usize
    ensures { ShareFirst one.now other.now result }
{
    let mut shared = 0;
    while shared < one.len() && shared < other.len() && one[shared] == other[shared] {
        shared += 1;
    }
    shared
}
