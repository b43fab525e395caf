// The types that document 02's rules about a trace that arrives in portions speak of. The rules themselves are the definitions in specs/.

#![tactic(auto)]

pub mod session;
