// The types that document 01's rules about a replay speak of. The rules themselves are the definitions in specs/.

#![tactic(auto)]

pub mod play;
