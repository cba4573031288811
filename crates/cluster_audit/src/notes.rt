//! What an audit finds, as lines.

use release_rules::Release;
use std::alloc::Global;
use texts::Shape;

// Lines of an audit in the order in which they come, each with its line feed.
pub(crate) struct Notes {
    // A line for each session and inode of which it holds what nobody behind its key is permitted.
    pub(crate) found: Vec<u8>,
    // Lines for what is held and could not be judged.
    pub(crate) unknown: Vec<u8>,
}

// Not derived: so the proof of a function that drops one has a single call there.
impl Drop for Notes {
    fn drop(self) {
        let Notes {
            found: _,
            unknown: _,
        } = self;
    }
}

impl Notes {
    ghost use Rattle.std.specs.Prelude.{◌≡◌, []};

    // No lines.
    pub(crate) fn none(alloc: Global) -> Notes
        ensures found { result.found.items ≡ [] }
        ensures unknown { result.unknown.items ≡ [] }
    {
        Notes {
            found: Vec::new(alloc),
            unknown: Vec::new(alloc),
        }
    }
}

/// In which detail an audit tells what it finds.
#[derive(Clone, Copy)]
pub enum Detail {
    /// By a line for each, with its path and its session.
    Each,
    /// By a line for all those of a client and a reason, and for all conflicts of two clients by the same caps, with how many
    /// there are.
    Groups,
}

/// By whose rules an audit judges, and how it tells what it finds.
#[derive(Clone, Copy)]
pub struct Manner {
    /// The release by whose rules is judged; this server's where there is none.
    pub mds: Option<Release>,
    /// In which detail.
    pub detail: Detail,
    /// In which shape.
    pub shape: Shape,
    /// Whether lines by this server's rules are followed by others, for where the MDS of a release judges otherwise.
    pub more: bool,
}

/// What an audit tells.
pub struct Report {
    /// Its lines, or the objects that stand in their place, each with its line feed. The last says how much was looked at, and what came of it.
    pub text: Vec<u8>,
    /// Whether anything was found or could not be judged.
    pub found: bool,
}

// Not derived: so the proof of a function that drops one has a single call there.
impl Drop for Report {
    fn drop(self) {
        let Report { text: _, found: _ } = self;
    }
}
