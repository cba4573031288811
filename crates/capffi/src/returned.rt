//! What calls with more than a status return to C: structs of numbers, as `embed/exports.h` has them. What has no answer is zeros.

use crate::passed::{Answer, Fault};

/// The verdict on the grants of a text.
#[derive(Drop)]
#[repr(C)]
pub struct TextVerdict {
    /// The status of the call.
    pub status: u32,
    /// What the grants say.
    pub answer: Answer,
    /// What is wrong with the text, if it has a fault.
    pub fault: Fault,
}

/// The caps that the grants of a text permit.
#[derive(Drop)]
#[repr(C)]
pub struct TextPermitted {
    /// The status of the call.
    pub status: u32,
    /// The caps, as bits.
    pub caps: u32,
    /// What is wrong with the text, if it has a fault.
    pub fault: Fault,
}

/// The reading of the grants of a text into a block.
#[derive(Drop)]
#[repr(C)]
pub struct TextRead {
    /// The status of the call.
    pub status: u32,
    /// How long the text behind the block is, in bytes.
    pub needed: u64,
    /// What is wrong with the text, if it has a fault.
    pub fault: Fault,
}

/// The verdict on the grants of a block.
#[derive(Drop)]
#[repr(C)]
pub struct BlockVerdict {
    /// The status of the call.
    pub status: u32,
    /// What the grants say.
    pub answer: Answer,
}

/// The verdict on the grants of a block, of what a mask asks for.
#[derive(Drop)]
#[repr(C)]
pub struct CheckVerdict {
    /// The status of the call.
    pub status: u32,
    /// The number of the access that the answer is to.
    pub access: u32,
    /// What the grants say.
    pub answer: Answer,
}
