// Document 01, Answer codes: every answer reads its lines from the state that it gives.
ghost use Rattle.std.specs.Prelude.{◌≡◌};
ghost use Rattle.rules.specs.Step as rule;
ghost use Rattle.rules.specs.Step.{answer_of};

use rules::answer::{Answer, Code, Done};
use rules::state::State;
use show::lines::{pin_line, therm_line};

pub fn answer(code: Code, reply: u8, s: State) -> Answer
    ensures { result ≡ answer_of code reply s }
{
    Answer {
        code,
        reply,
        alert: pin_line(s),
        therm: therm_line(s),
        state: s,
    }
}

pub fn done(d: Done) -> Answer
    ensures { result ≡ rule.done d }
{
    answer(Code::Done, d.reply, d.state)
}

pub fn silent(s: State) -> Done
    ensures { result ≡ rule.silent s }
{
    Done { reply: 0, state: s }
}

pub fn refused(code: Code, s: State) -> Answer
    ensures { result ≡ rule.refused code s }
{
    answer(code, 0, s)
}
