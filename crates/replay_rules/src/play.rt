use rules::state::State;

// What stops a replay. The numbers are document 01's codes. A portion has more of them, which no replay gives.
#[derive(Clone, Copy, PartialEq, Eq)]
pub enum Stop {
    Record = 7,
    Room = 8,
}

// What one record came to that was answered: the state after it, the trace bytes that it used and the output bytes that its answer took.
#[derive(Clone, Copy)]
pub struct Went {
    pub state: State,
    pub used: usize,
    pub written: usize,
}

// A replay, or one under way: what stopped it, the records answered, the trace bytes used, the output bytes written, and the state.
#[derive(Clone, Copy)]
pub struct Played {
    pub stop: Option<Stop>,
    pub records: usize,
    pub used: usize,
    pub written: usize,
    pub state: State,
}

// The longest trace, and the most room for its answers: 16 MiB (`Replay.too_long`).
pub const LONGEST_TRACE: usize = 16777216;
