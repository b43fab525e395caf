// The parts of a chip's state: its channels taken out and put back, its registers, and what each channel is compared with.

#![tactic(auto)]

pub mod channels;
pub mod limits;
pub mod stored;
