// The boundary to C and Rust: a door for each function of the sender, the queue, the tracker and the receiver. Memory is the caller's and is lent with each
// call; nothing of it is kept, and the library has no state of its own. The states that a caller keeps are `#[repr(C)]` in their own crates, with the fields of
// include/dolomisc.h's structs, which says how the doors are called. No door has a `requires`.
#![tactic(auto)]

pub mod answers;
pub mod headers;
pub mod queueing;
pub mod receiving;
pub mod sending;
