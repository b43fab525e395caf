// The 16 bytes of a report.
ghost use Rattle.std.specs.Prelude.{◌≡◌, ◌++◌};
ghost use Rattle.blocks.specs.Blocks.{word};
ghost use Rattle.replay_rules.specs.Replay.{written_over};

use blocks::{joined, put, word};

// Four numbers of four bytes each, low byte first, into a report of 16; any other is left as it is. The code is a number: a replay and a
// portion, whose codes are two types, report alike.
pub fn write_report(report: &mut [u8], code: u8, records: usize, used: usize, written: usize)
    ensures { report.new ≡ written_over (((word code ++ word records) ++ word used) ++ word written) report.old }
{
    let two: [u8; 8] = joined(&word(usize::from(code)), &word(records));
    let three: [u8; 12] = joined(&two, &word(used));
    let all: [u8; 16] = joined(&three, &word(written));
    put(&all, report);
}
