// A trace that arrives in portions: each is taken, what is whole of it is answered, and a partial record waits for the next.

#![tactic(auto)]

pub mod held;
pub mod joined;
pub mod portion;
pub mod session;
mod stops;
pub mod window;
