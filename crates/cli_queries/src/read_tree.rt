//! The tree of a cluster, read from a stream.
ghost use Rattle.std.specs.Prelude.{OnOk, IfOk, IfErr, IfSome, IsFalse, Ok, ◌≡◌};
ghost use Rattle.ceph_input.specs.Dump.{dump, tree_of};
ghost use Rattle.texts.specs.Watched.{has_failed, inner_of};
ghost use Rattle.cli_queries.specs.Growing.{StopsTree};

use crate::fault::AnswerFault;
use ceph_input::{Tree, TreeReader};
use std::alloc::Global;
use std::io::Read;
use texts::{ScriptFault, Watched};

/// How many bytes a tree may have.
const MAX_TREE: u64 = 1099511627776;

// How many bytes are read at once.
const CHUNK: usize = 4096;

/// Reads the tree that the reader has, and holds what is kept of it and one of its inodes.
pub(crate) fn read_tree<R: Read>(
    alloc: Global,
    reader: &mut Watched<R>,
) -> Result<Tree, AnswerFault>
    requires { IsFalse (has_failed reader.old) }
    ensures clear { OnOk result (IsFalse (has_failed reader.new)) }
    ensures ok { IfOk result (λ tree. IfSome (R.remaining (inner_of reader.old)) (λ text. tree_of text ≡ Ok (dump tree.inodes.items tree.paths))) }
    ensures err { IfErr result (λ fault. StopsTree fault (R.remaining (inner_of reader.old)) (has_failed reader.new)) }
{
    let mut tree = TreeReader::new(alloc)?;
    let mut buffer = [0; CHUNK];
    while tree.byte() <= MAX_TREE {
        let taken = match reader.read(&mut buffer) {
            Ok(taken) => taken,
            Err(_) => return Err(AnswerFault::Unread(ScriptFault::ReadFault)),
        };
        if taken == 0 {
            let tree = tree.finish()?;
            return Ok(tree);
        }
        tree.take(alloc, &buffer[..taken])?;
    }
    Err(AnswerFault::Unread(ScriptFault::ReadFault))
}
