// Document 01, Traces and their replay: the chip and the text joined.

#![tactic(auto)]

pub mod play;
pub mod report;

ghost use Rattle.std.specs.Prelude.{◌||◌, not, ◌≡◌, eqb, ltb, pos, Some, Err};
ghost use Rattle.text_rules.specs.declared.record.Unread.{Unread};
ghost use Rattle.text_rules.specs.Record.{parsed_code};
ghost use Rattle.replay_rules.specs.declared.play.Stop.TheVariants.{Record as NoRecord};
ghost use Rattle.replay_rules.specs.Play.{end_code};
ghost use Rattle.replay_rules.specs.Replay.{Replayed, replay_from};

use play::play;
use replay_rules::play::{LONGEST_TRACE, Stop};
use report::write_report;
use rules::state::State;

// A code of making a state, any number, other than 0, or a length that is refused.
fn is_refused(code: u8, trace: usize, output: usize, report: usize) -> bool
    ensures { result ≡ (not (eqb code 0) || ltb 16777216 trace || ltb 16777216 output || not (eqb report 16)) }
{
    (code != 0) | (LONGEST_TRACE < trace) | (LONGEST_TRACE < output) | (report != 16)
}

// Code 2 writes nothing: the report is lent, and comes back as it was.
fn refused(report: &mut [u8]) -> i32
    ensures value { result ≡ pos 2 }
    ensures report_unchanged { report.new ≡ report.old }
{
    2
}

// Document 01's number for what ended a replay, as its report has it; where no record stood, that of a part of one and of what is malformed
// alike. A portion's stops are a type of their own, in a layer above.
pub fn end_number(stop: Option<Stop>) -> u8
    ensures value { result ≡ end_code stop }
    ensures no_record { (e : Unread) → stop ≡ Some NoRecord → result ≡ parsed_code (Err e) }
{
    match stop {
        Some(stop) => stop as u8,
        None => 0,
    }
}

// From the code and the state that making one gave: whatever is given with the address is in it. The code is a number, since any was taken
// before there were fewer codes than numbers.
pub fn replay_made(
    code: u8,
    state: State,
    trace: &[u8],
    output: &mut [u8],
    report: &mut [u8],
) -> i32
    ensures { Replayed (replay_from code state trace.now output.old report.old) result output.new report.new }
{
    if is_refused(code, trace.len(), output.len(), report.len()) {
        return refused(report);
    }
    let p = play(state, trace, output);
    let end = end_number(p.stop);
    write_report(report, end, p.records, p.used, p.written);
    i32::from(end)
}
