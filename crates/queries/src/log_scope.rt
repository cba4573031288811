//! What is to be told of a log.

use release_rules::Release;
use texts::Shape;

/// On which file system, of which checks, and by which rules.
#[derive(Clone, Copy)]
pub struct LogScope<'a> {
    /// The name of the file system, where a check has none.
    pub fs: &'a [u8],
    /// Whether what is allowed is left out.
    pub only_denied: bool,
    /// The release by whose rules alone is judged, or none: by those of this server.
    pub release: Option<Release>,
    /// By lines, or by objects.
    pub shape: Shape,
    /// Whether what is told is counted, and the counts are told at the end in its place.
    pub counts: bool,
}

impl LogScope<'_> {
    ghost use Rattle.std.specs.Prelude.{◌≡◌};
    ghost use Rattle.queries.specs.Reported.{leaves_out, scope_of};

    // Whether what is allowed is left out: where what is denied is told alone, or counted.
    pub(crate) fn leaves_out(&self) -> bool
        ensures { result ≡ leaves_out (scope_of self.now) }
    {
        self.only_denied || self.counts
    }
}

/// A line of a log.
#[derive(Clone, Copy)]
pub(crate) struct LogLine<'a> {
    /// What is to be told of the log.
    pub(crate) scope: LogScope<'a>,
    /// The number of the line, from 1.
    pub(crate) number: u64,
}
