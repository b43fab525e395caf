// A trace's answers, and after them the line that says how it ended.
ghost use Rattle.std.specs.Prelude.{◌≤◌, length};
ghost use Rattle.console_rules.specs.Console.{Written, longest};

use replay::end_number;
use replay::play::play;
use text::answer::write_end;
use text_rules::sizes::{LONGEST_ANSWER, SHORTEST_RECORD};

// The longest trace that is replayed.
pub const MOST: usize = 24576;

// The longest text: the longest answer for each shortest record, and 6 for the end.
pub const LONGEST: usize = LONGEST_ANSWER * (MOST / SHORTEST_RECORD) + 6;

// Into a slice, whose goals speak of its length: an array's have 42675 there, and the laws of the text would need a premise for it.
fn write_text(trace: &[u8], out: &mut [u8]) -> usize
    requires { longest ≤ length out.old }
    ensures { Written trace.now out.old out.new result }
{
    if MOST < trace.len() {
        return write_end(out, 2).unwrap_or(0);
    }
    let p = play(chip::fresh(76).state, trace, out);
    let n = p.written;
    n + write_end(&mut out[n..], end_number(p.stop)).unwrap_or(0)
}

// An array of that length, so that there is always room.
pub fn answer_trace(trace: &[u8], out: &mut [u8; LONGEST]) -> usize
    ensures { Written trace.now out.old out.new result }
{
    write_text(trace, out)
}
