// One ADT7461 as its bus sees it. `fresh` makes a state, `step` takes an event; both are total, and the last answer's state is the
// next event's. `step_well` and `refuse_state` are a step's two halves, for a loop that asks `is_well_formed` once; that and
// `is_alert_low` are also for whoever joins several chips.

#![tactic(auto)]

mod answer;
mod event;
mod task;

ghost use Rattle.std.specs.Prelude.{◌≡◌, ◌≤◌, Err};
ghost use Rattle.rules.specs.declared.answer.Code.TheVariants.{IllFormed};
ghost use Rattle.rules.specs.Codes.{number_of};
ghost use Rattle.rules.specs.PowerOn.{made_of};
ghost use Rattle.rules.specs.WellFormed.{well_formed};
ghost use Rattle.rules.specs.Lines.{alert_low};
ghost use Rattle.rules.specs.Event.{check_of, checked_number};
ghost use Rattle.rules.specs.Step.{checked_of, refused, step_of};

use rules::answer::{Answer, Code, Made};
use rules::event::Numbers;
use rules::state::State;

// A state just after power-on, for address 76 or 77; code 2 for any other.
pub fn fresh(address: i32) -> Made
    ensures { result ≡ made_of address }
{
    power::make(address)
}

// One event: code, reply, both lines and the state after it.
#[tactic(auto, unfolding(rules::specs::Step::step_of))]
pub fn step(s: State, e: Numbers) -> Answer
    ensures { result ≡ step_of s e }
{
    if judge::well_formed(s) {
        step_well(s, e)
    } else {
        refuse_state(s)
    }
}

// One event on a state that is known to be well formed, as every state after it is: code 6 is not asked again.
pub fn step_well(s: State, e: Numbers) -> Answer
    ensures { result ≡ checked_of s (check_of e) }
{
    event::checked(s, events::check(e))
}

// Code 6, what a state that is not well formed is answered.
pub fn refuse_state(s: State) -> Answer
    ensures { result ≡ refused IllFormed s }
{
    answer::refused(Code::IllFormed, s)
}

// Document 01's number for a code, as the trace's text and C have it: a cast, whose clauses say which number, and that a check that gives the
// code has it. A From would hold the same.
pub fn code_number(code: Code) -> u8
    ensures value { result ≡ number_of code }
    ensures checked { result ≡ checked_number (Err code) }
    ensures upper_bound { result ≤ 6 }
{
    code as u8
}

pub fn is_well_formed(s: State) -> bool
    ensures { result ≡ well_formed s }
{
    judge::well_formed(s)
}

// ALERT, which pin 6 shows only in that role; an answer's alert is pin 6.
pub fn is_alert_low(s: State) -> bool
    ensures { result ≡ alert_low s }
{
    show::lines::alert_low(s)
}
