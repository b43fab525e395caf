use crate::state::State;

// Document 01, Answer codes, in its order: codes 0 to 6. `specs/Codes.antt` has their numbers.
#[derive(Clone, Copy, PartialEq, Eq)]
pub enum Code {
    Done,
    BadKind,
    BadField,
    Unheard,
    NoStart,
    NoEnd,
    IllFormed,
}

// What an event is answered: its code, the reply byte, both lines (true: high) and the state after it.
#[derive(Clone, Copy)]
pub struct Answer {
    pub code: Code,
    pub reply: u8,
    pub alert: bool,
    pub therm: bool,
    pub state: State,
}

// What making a state is answered. No `Result`: `Sound.ZerosAfterCode2` and `RefusedAfterCode2` promise the state that stands beside a refusal.
#[derive(Clone, Copy)]
pub struct Made {
    pub code: Code,
    pub state: State,
}

// What an event that is acknowledged does.
#[derive(Clone, Copy)]
pub struct Done {
    pub reply: u8,
    pub state: State,
}
