// One channel: its comparisons, and its part of a conversion. Every channel goes through the same functions.

#![tactic(auto)]

pub mod compare;
pub mod convert;
