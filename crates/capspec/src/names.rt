//! A path's text beside the names of a path.

ghost use Rattle.std.specs.Prelude.{◌≡◌, ◌↔◌, ◌+◌, ◌*◌, ◌<◌, ◌≤◌, IsTrue, length, map, slice_index};
ghost use Rattle.capspec.specs.Paths.{slashed};

/// Whether a text is these names with a slash before each. It goes from the last name on, by which paths mostly differ.
#[inline(always)]
pub fn is_text_of(text: &[u8], names: &[&[u8]]) -> bool
    ensures { IsTrue result ↔ (text.now ≡ slashed (map (λ name. name.now) names.now)) }
{
    let mut end = text.len();
    let mut left = names.len();
    while left > 0 {
        left -= 1;
        let name = names[left];
        if end <= name.len() {
            return false;
        }
        let start = end - name.len();
        if !is_same(&text[start..end], name) {
            return false;
        }
        end = start - 1;
        if text[end] != b'/' {
            return false;
        }
    }
    end == 0
}

// Whether two texts of one length are the same.
#[inline(always)]
fn is_same(one: &[u8], other: &[u8]) -> bool
    requires { length one.now ≡ length other.now }
    ensures { IsTrue result ↔ (one.now ≡ other.now) }
{
    let len = other.len();
    if 2 <= len && len <= 4 {
        return is_same_by_pairs(one, other);
    }
    one == other
}

/// Whether two texts of one length, of two to four bytes, are the same. They are compared as two pairs, which costs the least: the
/// pairs may share bytes.
#[inline(always)]
#[tactic(auto, using(crate::proofs::Pairs::same_by_pairs))]
pub fn is_same_by_pairs(one: &[u8], other: &[u8]) -> bool
    requires same { length one.now ≡ length other.now }
    requires more { 2 ≤ length other.now }
    requires few { length other.now ≤ 4 }
    ensures { IsTrue result ↔ (one.now ≡ other.now) }
{
    is_same_pair(one, other, 0) && is_same_pair(one, other, other.len() - 2)
}

// Whether two bytes from a place on are the same.
#[inline(always)]
fn is_same_pair(one: &[u8], other: &[u8], place: usize) -> bool
    requires inside { place + 2 ≤ length other.now }
    requires same { length one.now ≡ length other.now }
    ensures { IsTrue result ↔ ((slice_index one.now place ≡ slice_index other.now place) × (slice_index one.now (place + 1) ≡ slice_index other.now (place + 1))) }
{
    pair_at(one, place) == pair_at(other, place)
}

// Two bytes from a place on as one number, which is read at once.
#[inline(always)]
fn pair_at(bytes: &[u8], place: usize) -> u16
    requires { place + 2 ≤ length bytes.now }
    ensures value { result ≡ slice_index bytes.now place + 256 * slice_index bytes.now (place + 1) }
    ensures low { slice_index bytes.now place < 256 }
{
    u16::from(bytes[place]) + 256 * u16::from(bytes[place + 1])
}
