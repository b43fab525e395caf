// Document 01, Registers: which register a command names, which bits of a byte it keeps, and the configuration's bits.

#![tactic(auto)]

pub mod bits;
pub mod command;
pub mod row;
