//! One cap, and the part of an inode that it covers.
ghost use Rattle.std.specs.Prelude.{◌≡◌};
ghost use Rattle.capbits.specs.Sets.{caps_of_part};
ghost use Rattle.capbits.specs.Text.{capital_of, letter_of};

/// A part of an inode's metadata, with a lock of its own ("Capabilities in CephFS" in the Ceph documentation).
#[derive(Clone, Copy, PartialEq, Eq, PartialOrd, Ord, Hash, Debug)]
pub enum Part {
    /// Auth: owner, group and mode.
    A,
    /// Link: the link count.
    L,
    /// Xattr: extended attributes.
    X,
    /// File: file data with size and times.
    F,
}

impl Part {
    /// The caps that cover this part, in the order of their letters in a text.
    pub fn caps(self) -> &'static [Cap]
        ensures { result.now ≡ caps_of_part self }
    {
        match self {
            Part::A => &[Cap::As, Cap::Ax],
            Part::L => &[Cap::Ls, Cap::Lx],
            Part::X => &[Cap::Xs, Cap::Xx],
            Part::F => &[
                Cap::Fs,
                Cap::Fx,
                Cap::Fc,
                Cap::Fr,
                Cap::Fw,
                Cap::Fb,
                Cap::Fa,
                Cap::Fl,
            ],
        }
    }

    /// The capital that stands before its letters in a text.
    pub fn capital(self) -> u8
        ensures { result ≡ capital_of self }
    {
        match self {
            Part::A => b'A',
            Part::L => b'L',
            Part::X => b'X',
            Part::F => b'F',
        }
    }
}

/// One of the fifteen capabilities that a client may hold on an inode ("Capabilities in CephFS" in the Ceph
/// documentation). A capital names the part that is covered, and a small letter what the client may do with it.
#[derive(Clone, Copy, PartialEq, Eq, PartialOrd, Ord, Hash, Debug)]
pub enum Cap {
    /// Pin: the inode stays known to the client.
    P,
    /// Owner, group and mode, shared: the client may read and keep them.
    As,
    /// Owner, group and mode, exclusive: the client may also change them.
    Ax,
    /// The link count, shared.
    Ls,
    /// The link count, exclusive.
    Lx,
    /// Extended attributes, shared.
    Xs,
    /// Extended attributes, exclusive.
    Xx,
    /// Size and times, shared.
    Fs,
    /// Size and times, exclusive.
    Fx,
    /// The client may keep file data that it read.
    Fc,
    /// The client may read file data.
    Fr,
    /// The client may write file data.
    Fw,
    /// The client may keep file data that it is to write.
    Fb,
    /// The client may extend the file.
    Fa,
    /// The client may do lazy io.
    Fl,
}

impl Cap {
    /// Its letter in a text, which stands behind the capital of its part; that of the pin stands alone.
    pub fn letter(self) -> u8
        ensures { result ≡ letter_of self }
    {
        match self {
            Cap::P => b'p',
            Cap::As | Cap::Ls | Cap::Xs | Cap::Fs => b's',
            Cap::Ax | Cap::Lx | Cap::Xx | Cap::Fx => b'x',
            Cap::Fc => b'c',
            Cap::Fr => b'r',
            Cap::Fw => b'w',
            Cap::Fb => b'b',
            Cap::Fa => b'a',
            Cap::Fl => b'l',
        }
    }
}
