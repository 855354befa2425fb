//! What a read finds.

use crate::byte_types::Value;
use crate::ids::StateId;

/// What is read of a key at one state.
#[derive(Clone, Copy)]
pub enum Found<'a> {
    Value { writer: StateId, value: &'a Value },
    Deleted { writer: StateId },
    Absent,
}

/// What is read of a key over several states.
#[derive(Clone, Copy)]
pub enum Over<'a> {
    Found(Found<'a>),
    Conflict,
}
