// Document 01, Traces and their replay: records read and answers written, as text. It knows no chip. Each is done in two ways that give
// the same: carefully, and quickly where much is left.

#![tactic(auto)]

pub mod answer;
pub mod line;
pub mod number;
pub mod quick;
pub mod record;
