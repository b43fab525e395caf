// A record's four numbers.
#[derive(Clone, Copy)]
pub struct Record {
    pub kind: i32,
    pub a: i32,
    pub b: i32,
    pub c: i32,
}

// Why a line or a record was not read: the bytes end in a part of one, that more bytes could complete; or no bytes could.
#[derive(Clone, Copy, PartialEq, Eq)]
pub enum Unread {
    Part,
    Malformed,
}
