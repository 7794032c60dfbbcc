//! What each call from C does: the values that cross, and the functions over them.
//!
//! The exports of the library for C, in `meadowtray`, look what a handle holds, and call these with it.
#![tactic(auto)]

pub mod codec;
pub mod contents;
pub mod ends;
pub mod handles;
pub mod splitting;
