// A name at the front of a part: whole, begun, or not there.
#[derive(Clone, Copy)]
pub enum Fit {
    Yes,
    Begun,
    No,
}
