// Document 01, Events: four signed numbers checked into an event, or the code that refuses them.

#![tactic(auto)]

ghost use Rattle.std.specs.Prelude.{◌≡◌, ◌&&◌, pos};
ghost use Rattle.rules.specs.Event as rule;
ghost use Rattle.rules.specs.Event.{byte_of, sample_of, samples_of, good_if, check_of, is_local_sample, is_remote_sample, is_mark};
ghost use Rattle.rules.specs.declared.event.Event.TheVariants.{End};

use rules::answer::Code;
use rules::event::{Event, Numbers, Samples};

fn within(lo: i32, hi: i32, x: i32) -> bool
    ensures { result ≡ rule.within lo hi x }
{
    (lo <= x) & (x <= hi)
}

// Each of the three is one of 0 to its largest number.
fn fields(e: Numbers, a: i32, b: i32, c: i32) -> bool
    ensures { result ≡ (rule.within (pos 0) a e.a && rule.within (pos 0) b e.b && rule.within (pos 0) c e.c) }
{
    within(0, a, e.a) & within(0, b, e.b) & within(0, c, e.c)
}

// One line each for a byte and for a sample: the name says which. A number that is no byte becomes 0, and the fields' test refuses its event.
fn byte(x: i32) -> u8
    ensures { result ≡ byte_of x }
{
    u8::try_from(x).unwrap_or(0)
}

// As `byte`, for a sample.
fn sample(x: i32) -> i16
    ensures { result ≡ sample_of x }
{
    i16::try_from(x).unwrap_or(0)
}

// Kind 7, by three numbers: over the event whole, and within the match below, the proof did not close.
fn end(a: i32, b: i32, c: i32) -> Result<Event, Code>
    ensures { result ≡ good_if (is_local_sample a && is_remote_sample b && is_mark c) (End (samples_of a b c)) }
{
    let fields = within(-8192, 8191, a) & within(-32768, 32767, b) & within(0, 1, c);
    fields
        .then(|| Event::End {
            samples: Samples {
                local: sample(a),
                remote: sample(b),
                broken: byte(c) == 1,
            },
        })
        .ok_or(Code::BadField)
}

// The event that the numbers are, or the code that refuses them: code 1 for a kind that is none of 0..7, whatever its fields; code 2 for a
// field out of its range. Nothing is made of an event that is refused; and each arm ends in itself, since an event that the arms join in, or
// that is handed to a helper, goes through memory.
pub fn check(e: Numbers) -> Result<Event, Code>
    ensures { result ≡ check_of e }
{
    match e.kind {
        0 => fields(e, 0, 0, 0)
            .then(|| Event::Reset)
            .ok_or(Code::BadField),
        1 => fields(e, 127, 255, 0)
            .then(|| Event::Send {
                address: byte(e.a),
                command: byte(e.b),
            })
            .ok_or(Code::BadField),
        2 => fields(e, 127, 255, 255)
            .then(|| Event::Write {
                address: byte(e.a),
                command: byte(e.b),
                byte: byte(e.c),
            })
            .ok_or(Code::BadField),
        3 => fields(e, 127, 255, 0)
            .then(|| Event::Read {
                address: byte(e.a),
                command: byte(e.b),
            })
            .ok_or(Code::BadField),
        4 => fields(e, 127, 0, 0)
            .then(|| Event::Receive { address: byte(e.a) })
            .ok_or(Code::BadField),
        5 => fields(e, 0, 0, 0)
            .then(|| Event::Respond)
            .ok_or(Code::BadField),
        6 => fields(e, 0, 0, 0)
            .then(|| Event::Start)
            .ok_or(Code::BadField),
        7 => end(e.a, e.b, e.c),
        _ => Err(Code::BadKind),
    }
}
