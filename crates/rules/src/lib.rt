// The types that document 01's rules speak of. The rules themselves are the definitions in specs/.

#![tactic(auto)]

pub mod answer;
pub mod event;
pub mod register;
pub mod state;
