// What a write byte and the end of a conversion do to a chip's state.

#![tactic(auto)]

pub mod convert;
mod runs;
pub mod write;
