// The digits at the front of a part, and what they are worth.
#[derive(Clone, Copy)]
pub struct Digits {
    pub value: u32,
    pub count: usize,
}
