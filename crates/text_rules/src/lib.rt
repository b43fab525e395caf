// The types that document 01's rules about text speak of. The rules themselves are the definitions in specs/. They know no chip.

#![tactic(auto)]

pub mod answer;
pub mod line;
pub mod number;
pub mod record;
pub mod sizes;
