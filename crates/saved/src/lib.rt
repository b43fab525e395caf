// A chip's state saved as bytes, and loaded from them.

#![tactic(auto)]

pub mod load;
pub mod save;
