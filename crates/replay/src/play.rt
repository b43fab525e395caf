// Records read, stepped and answered one after the other.
ghost use Rattle.std.specs.Prelude.{ℕ, ◌≤◌, ◌≡◌, true, List, Some, None, Err, length, drop};
ghost use Rattle.rules.specs.declared.event.Numbers.{Numbers};
ghost use Rattle.rules.specs.WellFormed.{well_formed};
ghost use Rattle.rules.specs.Step.{step_of};
ghost use Rattle.replay_rules.specs.declared.play.Stop.TheVariants.{Record as NoRecord};
ghost use Rattle.replay_rules.specs.Play.{Mid, Ran, Turned, next_of, numbers_of, shown_of};

use chip::code_number;
use replay_rules::play::{Played, Stop, Went};
use rules::answer::{Answer, Code};
use rules::event::Numbers;
use rules::state::State;
use text::answer::{LONGEST, write_answer, write_quickly};
use text::quick::read_quickly;
use text::record::read_record;
use text_rules::answer::Shown;
use text_rules::record::{Record, Unread};

// How far a drive came, and whether no record stands there; or what its one event was answered. One type for both: two would be two ways out
// of the one loop in which a chip steps (docs/BENCHMARK.md).
#[derive(Clone, Copy)]
struct Driven {
    unread: bool,
    records: usize,
    used: usize,
    written: usize,
    answer: Answer,
}

// The same state, each flag read as a flag: what comes from memory could be any byte to the compiler, which would ask at every event
// (docs/BENCHMARK.md).
fn settled(s: State) -> State
    ensures { result ≡ s }
{
    State {
        address: s.address,
        ..s
    }
}

// A state under way, with nothing answered.
fn holding(s: State) -> Answer
    ensures { result.state ≡ s }
{
    Answer {
        code: Code::Done,
        reply: 0,
        alert: true,
        therm: true,
        state: s,
    }
}

// The text knows no chip, so it has a record of its own and shows numbers. A From would have to stand in a crate that declares neither type.
fn numbers_of(r: Record) -> Numbers
    ensures { result ≡ numbers_of r }
{
    Numbers {
        kind: r.kind,
        a: r.a,
        b: r.b,
        c: r.c,
    }
}

fn shown(a: Answer) -> Shown
    ensures { result ≡ shown_of a }
{
    Shown {
        code: code_number(a.code),
        reply: a.reply,
        alert: a.alert,
        therm: a.therm,
    }
}

// The event that is handed over, as a record of no bytes; or the record at the front of the rest.
fn next_record(only: Option<Numbers>, rest: &[u8]) -> Result<(Record, usize), Unread>
    ensures { result ≡ next_of only rest.now }
{
    match only {
        Some(e) => Ok((
            Record {
                kind: e.kind,
                a: e.a,
                b: e.b,
                c: e.c,
            },
            0,
        )),
        None => read_quickly(rest),
    }
}

// Every event that a call from C gives a well-formed chip goes through this one function. So in C's library the step has one caller, and the
// compiler lays it into the loop. Records are answered while there is room for the longest answer: no state from before the step has to be
// kept. Where an event is handed over it is answered, and nothing else.
fn drive(s: State, only: Option<Numbers>, trace: &[u8], out: &mut [u8]) -> Driven
    requires s_value { well_formed s ≡ true }
    requires in_bounds { (e : Numbers) → only ≡ Some e → 35 ≤ length out.old }
    ensures mid { only ≡ None → Mid s trace.now out.old out.new result.answer.state result.records result.used result.written }
    ensures turned { only ≡ None → result.unread ≡ true → (before : List ℕ) → Turned result.answer.state (drop result.used trace.now) before before (Err NoRecord) }
    ensures answer_value { (e : Numbers) → only ≡ Some e → result.answer ≡ step_of s e }
{
    let mut state = settled(s);
    let mut records: usize = 0;
    let mut used: usize = 0;
    let mut written: usize = 0;
    // no index is counted, here and in `play`: each round moves by the bytes that its record used and its answer took
    while LONGEST <= out.len() - written {
        let Ok((r, n)) = next_record(only, &trace[used..]) else {
            return Driven {
                unread: true,
                records,
                used,
                written,
                answer: holding(state),
            };
        };
        let a = chip::step_well(state, numbers_of(r));
        if n == 0 {
            return Driven {
                unread: false,
                records,
                used,
                written,
                answer: a,
            };
        }
        let Some(k) = write_quickly(&mut out[written..], shown(a)) else {
            return Driven {
                unread: false,
                records,
                used,
                written,
                answer: holding(state),
            };
        };
        state = a.state;
        records += 1;
        used += n;
        written += k;
    }
    Driven {
        unread: false,
        records,
        used,
        written,
        answer: holding(state),
    }
}

// One event: what `chip::step` gives, by the one place where a chip steps.
pub fn event(s: State, e: Numbers) -> Answer
    ensures { result ≡ step_of s e }
{
    if chip::is_well_formed(s) {
        let mut room = [0u8; LONGEST];
        return drive(s, Some(e), &[], &mut room).answer;
    }
    chip::refuse_state(s)
}

// One record: read, stepped, and answered at the front of what is lent.
pub fn take_turn(s: State, rest: &[u8], out: &mut [u8]) -> Result<Went, Stop>
    ensures { Turned s rest.now out.old out.new result }
{
    let Ok((r, used)) = read_record(rest) else {
        return Err(Stop::Record);
    };
    let a = event(s, numbers_of(r));
    let Some(written) = write_answer(out, shown(a)) else {
        return Err(Stop::Room);
    };
    Ok(Went {
        state: a.state,
        used,
        written,
    })
}

// As far as a drive comes; a state that is not well formed is not driven.
fn begin(s: State, trace: &[u8], out: &mut [u8]) -> Driven
    ensures mid { Mid s trace.now out.old out.new result.answer.state result.records result.used result.written }
    ensures turned { result.unread ≡ true → (before : List ℕ) → Turned result.answer.state (drop result.used trace.now) before before (Err NoRecord) }
{
    if chip::is_well_formed(s) {
        return drive(s, None, trace, out);
    }
    Driven {
        unread: false,
        records: 0,
        used: 0,
        written: 0,
        answer: holding(s),
    }
}

// Records up to the end of the trace, or to what stops them there: driven, then, where there is little room, turn by turn.
pub fn play(s: State, trace: &[u8], out: &mut [u8]) -> Played
    ensures { Ran s trace.now out.old out.new result }
{
    let d = begin(s, trace, out);
    let mut p = Played {
        stop: None,
        records: d.records,
        used: d.used,
        written: d.written,
        state: d.answer.state,
    };
    if p.used == trace.len() {
        return p;
    }
    if d.unread {
        return Played {
            stop: Some(Stop::Record),
            ..p
        };
    }
    while p.used < trace.len() {
        match take_turn(p.state, &trace[p.used..], &mut out[p.written..]) {
            Ok(went) => {
                p.state = went.state;
                p.records += 1;
                p.used += went.used;
                p.written += went.written;
            }
            Err(stop) => {
                return Played {
                    stop: Some(stop),
                    ..p
                };
            }
        }
    }
    p
}
