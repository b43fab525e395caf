// What an answer shows. Its code is a number: the text knows no codes and writes any (`Answer.answer_text` is of every number).
#[derive(Clone, Copy)]
pub struct Shown {
    pub code: u8,
    pub reply: u8,
    pub alert: bool,
    pub therm: bool,
}
