// What each task does, and so what each of the eight forms of an event is answered.
ghost use Rattle.std.specs.Prelude.{◌≡◌, true};
ghost use Rattle.chip.specs.Task.{perform_of};
ghost use Rattle.rules.specs.Step as rule;
ghost use Rattle.rules.specs.Step.{respond_of, start_of, end_of, apply_of, checked_of, response_of};
ghost use Rattle.rules.specs.PowerOn.{power_on};
ghost use Rattle.rules.specs.State.{given_of, with_busy};

use crate::answer::{answer, done, refused, silent};
use crate::task::{Task, asked};
use change::convert::converted;
use change::write::{pointed, written};
use power::power_on;
use registers::bits::is_standby;
use rules::answer::{Answer, Code};
use rules::event::{Event, Samples};
use rules::state::{Given, State};
use show::lines::alert_low;
use show::read::read_at_pointer;
use show::status::any_flag;

fn reset(s: State) -> Answer
    ensures { result ≡ rule.done (rule.silent (power_on (given_of s))) }
{
    done(silent(power_on(Given { address: s.address })))
}

// A bus address has seven bits, so the byte is in range for any.
fn response(address: u8) -> u8
    ensures { result ≡ response_of address }
{
    2 * (address % 128) + 1
}

fn responded(s: State) -> State
    ensures { result ≡ rule.responded s }
{
    State {
        latch: s.latch & any_flag(s),
        ..s
    }
}

#[tactic(auto, unfolding(rules::specs::Step::respond_of))]
fn respond(s: State) -> Answer
    ensures { result ≡ respond_of s }
{
    if alert_low(s) {
        answer(Code::Done, response(s.address), responded(s))
    } else {
        refused(Code::Unheard, s)
    }
}

fn started(s: State) -> State
    ensures { result ≡ with_busy s true }
{
    State { busy: true, ..s }
}

#[tactic(auto, unfolding(rules::specs::Step::start_of))]
fn start(s: State) -> Answer
    ensures { result ≡ start_of s }
{
    if is_standby(s.config) | s.busy {
        refused(Code::NoStart, s)
    } else {
        done(silent(started(s)))
    }
}

#[tactic(auto, unfolding(rules::specs::Step::end_of))]
fn end(s: State, t: Samples) -> Answer
    ensures { result ≡ end_of s t }
{
    if s.busy {
        done(silent(converted(s, t)))
    } else {
        refused(Code::NoEnd, s)
    }
}

// Reading stands once: the compiler lays a function that has one caller into it, and the state stays in registers.
fn perform(s: State, t: Task) -> Answer
    ensures { result ≡ perform_of s t }
{
    match t {
        Task::Reset => reset(s),
        Task::Point(command) => done(silent(pointed(s, command))),
        Task::Write(command, byte) => done(silent(written(s, command, byte))),
        Task::Read(command) => done(read_at_pointer(pointed(s, command))),
        Task::Respond => respond(s),
        Task::Start => start(s),
        Task::End(samples) => end(s, samples),
        Task::Foreign => refused(Code::Unheard, s),
    }
}

#[tactic(auto, using(crate::proofs::Performed::performed))]
fn apply(s: State, e: Event) -> Answer
    ensures { result ≡ apply_of s e }
{
    perform(s, asked(s, e))
}

pub fn checked(s: State, c: Result<Event, Code>) -> Answer
    ensures { result ≡ checked_of s c }
{
    match c {
        Ok(e) => apply(s, e),
        Err(code) => refused(code, s),
    }
}
