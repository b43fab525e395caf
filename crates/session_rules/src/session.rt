use rules::answer::Code;
use rules::state::State;

// The count of carried bytes can be any that bytes from C hold: code 6 refuses what does not fit, and no heap is had to hold what does. Each
// of the three counts is bounded by a law of its own, and no law is of the three together.
// A trace under way: the chip, the bytes of a partial record (the first count of carried), the counts so far, whether its end was declared,
// and whether it stopped with code 7.
#[derive(Clone, Copy)]
pub struct Session {
    pub chip: State,
    pub records: usize,
    pub used: usize,
    pub written: usize,
    pub ended: bool,
    pub stopped: bool,
    pub count: usize,
    pub carried: [u8; 38],
}

// A session opened, and the code; as of a chip made, a session stands beside a refusal too, and code 6 refuses it (`Portions.OpeningMeans`).
#[derive(Clone, Copy)]
pub struct Opened {
    pub code: Code,
    pub session: Session,
}

// Why a portion is refused, or stops before its end. The numbers are the codes of document 01 and of document 02, item 1.
#[derive(Clone, Copy, PartialEq, Eq)]
pub enum Stop {
    TooLong = 2,
    NoSession = 6,
    Record = 7,
    Room = 8,
    Ended = 9,
}

// What one portion came to: what stopped it, the bytes that were taken of it, the output bytes that were written, and the session after it.
#[derive(Clone, Copy)]
pub struct Fed {
    pub stop: Option<Stop>,
    pub taken: usize,
    pub written: usize,
    pub session: Session,
}

// The first 39 bytes of something, or all of it where there are fewer: no heap is had, and `Portion.window_of` says how many.
#[derive(Clone, Copy)]
pub struct Window {
    pub bytes: [u8; 39],
    pub count: usize,
}
