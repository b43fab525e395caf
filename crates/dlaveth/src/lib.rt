// What a C program calls: all of it, and nothing else. A chip is 128 bytes that the caller lends, and an event's answer is 8.

#![tactic(auto)]

mod portions;

ghost use Rattle.std.specs.Prelude.{◌≡◌};
ghost use Rattle.replay_rules.specs.Replay.{Replayed, replay_of};
ghost use Rattle.saved_rules.specs.Layout.{saved_over};
ghost use Rattle.saved_rules.specs.Face.{EventDone, PoweredOn, answer_bytes, answer_over, event_of, power_on_of, powered_from};

use blocks::put;
use chip::{code_number, fresh};
use replay::play::event;
use rules::answer::{Code, Made};
use rules::event::Numbers;
use saved::load::load;
use saved::save::{bit, holds, save};

// Zeros, which are no saved state, where no chip was made. A session is placed by the same few lines, over its own type and bytes.
fn place(made: Made, out: &mut [u8])
    ensures { out.new ≡ saved_over (powered_from made).chip out.old }
{
    if made.code == Code::Done {
        save(made.state, out);
    } else {
        put(&[0; 128], out);
    }
}

#[unsafe(no_mangle)]
pub extern "C" fn dlaveth_power_on(address: i32, chip: &mut [u8]) -> i32
    ensures { PoweredOn (power_on_of address chip.old) result chip.new }
{
    if chip.len() != 128 {
        return 2;
    }
    let made = fresh(address);
    place(made, chip);
    i32::from(code_number(made.code))
}

// The eight bytes that C is told, numbers all of them.
fn put_answer(out: &mut [u8], code: u8, reply: u8, alert: bool, therm: bool)
    ensures { out.new ≡ answer_over (answer_bytes code reply alert therm) out.old }
{
    let all = [code, reply, bit(alert), bit(therm), 0, 0, 0, 0];
    put(&all, out);
}

// Bytes that are no saved state are code 6 and are left as they are.
#[unsafe(no_mangle)]
pub extern "C" fn dlaveth_event(
    chip: &mut [u8],
    kind: i32,
    a: i32,
    b: i32,
    c: i32,
    answer: &mut [u8],
) -> i32
    ensures { EventDone (event_of chip.old (record { kind = kind; a = a; b = b; c = c }) answer.old) result chip.new answer.new }
{
    if (chip.len() != 128) | (answer.len() != 8) {
        return 2;
    }
    let s = load(chip);
    if !holds(s, chip) {
        put_answer(answer, 6, 0, true, true);
        return 6;
    }
    let done = event(s, Numbers { kind, a, b, c });
    save(done.state, chip);
    let code = code_number(done.code);
    put_answer(answer, code, done.reply, done.alert, done.therm);
    i32::from(code)
}

// A whole trace: crates/replay has what it does.
#[unsafe(no_mangle)]
pub extern "C" fn replay(address: i32, trace: &[u8], output: &mut [u8], report: &mut [u8]) -> i32
    ensures { Replayed (replay_of address trace.now output.old report.old) result output.new report.new }
{
    let made = fresh(address);
    replay::replay_made(code_number(made.code), made.state, trace, output, report)
}
