// What a chip's state shows: the status byte, what a read finds and leaves, and the two lines.

#![tactic(auto)]

pub mod lines;
pub mod read;
pub mod status;
