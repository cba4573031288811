//! What a grant lets a client do, before its path and its numbers are looked at.

ghost use Rattle.std.specs.Prelude.{◌≡◌};
ghost use Rattle.std.specs.List.{list_all};
ghost use Rattle.capspec.specs.Flags.{count_of, is_flag, is_left_out};

/// The flags of a grant: r, and of w, p and s those that its flag word names.
#[derive(Clone, Copy, Debug, PartialEq, Eq)]
pub enum Flags4 {
    /// Read alone.
    R,
    /// Read and write.
    Rw,
    /// Also set attributes whose name begins with `ceph.`, such as quotas.
    Rwp,
    /// Also make and remove snapshots.
    Rws,
    /// All four.
    Rwps,
}

impl Flags4 {
    ghost use Rattle.std.specs.Prelude.{◌≡◌, MatchOption};
    ghost use Rattle.capspec.specs.Flags.{IsFlags, flags_text, has_p, has_s, has_w};
    ghost use Rattle.capspec.specs.declared.flags.Flags4.{Flags4};

    /// The flags that a word names, if it is a flag word.
    pub fn read(word: &[u8]) -> Option<Flags4>
        ensures { MatchOption result ((flags : Flags4) → IsFlags word.now flags → ⊥) (IsFlags word.now) }
    {
        match word {
            b"r" => Some(Flags4::R),
            b"rw" => Some(Flags4::Rw),
            b"rwp" => Some(Flags4::Rwp),
            b"rws" => Some(Flags4::Rws),
            b"rwps" | b"*" | b"all" => Some(Flags4::Rwps),
            _ => None,
        }
    }

    /// Whether w is among the flags: the grant is for more than reading.
    pub fn has_w(self) -> bool
        ensures { result ≡ has_w self }
    {
        !matches!(self, Flags4::R)
    }

    /// Whether p is among the flags: the grant covers attributes whose name begins with `ceph.`.
    pub fn has_p(self) -> bool
        ensures { result ≡ has_p self }
    {
        matches!(self, Flags4::Rwp | Flags4::Rwps)
    }

    /// Whether s is among the flags: the grant covers snapshots.
    pub fn has_s(self) -> bool
        ensures { result ≡ has_s self }
    {
        matches!(self, Flags4::Rws | Flags4::Rwps)
    }

    /// The letters of the flags.
    pub fn text(self) -> &'static [u8]
        ensures { result.now ≡ flags_text self }
    {
        match self {
            Flags4::R => b"r",
            Flags4::Rw => b"rw",
            Flags4::Rwp => b"rwp",
            Flags4::Rws => b"rws",
            Flags4::Rwps => b"rwps",
        }
    }
}

/// Whether a word has the flag f, which this profile leaves out, and else only flags of the profile, none of them twice.
pub fn is_left_out(word: &[u8]) -> bool
    ensures { result ≡ is_left_out word.now }
{
    has_flags_alone(word)
        && count_of(b'r', word) <= 1
        && count_of(b'w', word) <= 1
        && count_of(b'p', word) <= 1
        && count_of(b's', word) <= 1
        && count_of(b'f', word) == 1
}

fn has_flags_alone(word: &[u8]) -> bool
    ensures { result ≡ list_all is_flag word.now }
{
    for letter in word {
        if !matches!(letter, b'r' | b'w' | b'p' | b's' | b'f') {
            return false;
        }
    }
    true
}

fn count_of(byte: u8, word: &[u8]) -> usize
    ensures { result ≡ count_of byte word.now }
{
    let mut count = 0;
    for other in word {
        if *other == byte {
            count += 1;
        }
    }
    count
}
