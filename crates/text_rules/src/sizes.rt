// How long a record and an answer are, for code: the numbers of specs/Sizes.antt.
pub const SHORTEST_RECORD: usize = 19;

pub const LONGEST_RECORD: usize = 39;

pub const SHORTEST_ANSWER: usize = 31;

pub const LONGEST_ANSWER: usize = 33;
