//! The operation of a request, borrowed from its event or from the queue.
ghost use Rattle.std.specs.Prelude.{◌≡◌, IfOk};
ghost use Rattle.capstep.specs.OperationRefs.{operation_of};

use capbits::{Ino, Part};
use lockmachine::{Bytes, Change, Operation};
use std::alloc::{AllocError, Global};

/// An operation as it is judged: what rejects it is looked for first, and it is copied only where it is to wait.
#[derive(Clone, Copy)]
pub enum OperationRef<'a> {
    /// Tell what the inode keeps of this part.
    Get(Part),
    /// Change it.
    Alter(&'a Change),
    /// Unlink it, a file.
    Unlink,
    /// Remove it, an empty directory.
    Rmdir,
    /// Move it into a directory, under a name.
    Rename {
        dir: Ino,
        /// The name in it.
        name: &'a Bytes,
    },
}

/// The operation of a request that waits, borrowed, so that it is judged without a copy.
pub fn operation_ref(operation: &Operation) -> OperationRef<'_>
    ensures { operation_of result ≡ operation.now }
{
    match operation {
        Operation::Get(part) => OperationRef::Get(*part),
        Operation::Alter(change) => OperationRef::Alter(change),
        Operation::Unlink => OperationRef::Unlink,
        Operation::Rmdir => OperationRef::Rmdir,
        Operation::Rename { dir, name } => OperationRef::Rename { dir: *dir, name },
    }
}

/// A copy of the operation, to wait in the queue.
pub fn copy_of_operation(alloc: Global, operation: OperationRef) -> Result<Operation, AllocError>
    ensures { IfOk result (λ copy. copy ≡ operation_of operation.entry) }
{
    match operation {
        OperationRef::Get(part) => Ok(Operation::Get(part)),
        OperationRef::Alter(change) => Ok(Operation::Alter(change.copy(alloc)?)),
        OperationRef::Unlink => Ok(Operation::Unlink),
        OperationRef::Rmdir => Ok(Operation::Rmdir),
        OperationRef::Rename { dir, name } => {
            let name = Bytes::read(alloc, name.as_slice())?;
            Ok(Operation::Rename { dir, name })
        }
    }
}
