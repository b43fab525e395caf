// Document 01, Registers: what a read finds, and what it leaves.
ghost use Rattle.std.specs.Prelude.{◌≡◌};
ghost use Rattle.rules.specs.Channels.{scale_of};
ghost use Rattle.rules.specs.Values.{high_byte_of, low_byte_of};
ghost use Rattle.rules.specs.State.{channel_at};
ghost use Rattle.rules.specs.Read.{reading_of, after_read, read_at_pointer};

use crate::status::{after_status, status};
use parts::stored::stored;
use registers::command::source;
use rules::answer::Done;
use rules::register::{Channel, Source};
use rules::state::State;
use values::{high_byte, low_byte};

fn value_of(s: State, channel: Channel) -> u16
    ensures { result ≡ (channel_at s channel).value }
{
    match channel {
        Channel::Local => s.localvalue,
        Channel::Remote => s.remotevalue,
    }
}

// The register's byte, or that there is no register.
pub fn read(s: State, from: Source) -> Option<u8>
    ensures { result ≡ reading_of s from }
{
    match from {
        Source::Stored(register) => Some(stored(s, register)),
        Source::Value(channel) => Some(high_byte(channel, value_of(s, channel))),
        Source::ValueFine(channel) => Some(low_byte(channel, value_of(s, channel))),
        Source::Status => Some(status(s)),
        Source::Maker => Some(0x41),
        Source::Revision => Some(0x51),
        Source::Hole => None,
    }
}

fn after_read(s: State, from: Source) -> State
    ensures { result ≡ after_read s from }
{
    match from {
        Source::Status => after_status(s),
        _ => s,
    }
}

// The reply is taken before the read changes anything.
#[tactic(auto, unfolding(rules::specs::Read::read_at_pointer))]
pub fn read_at_pointer(s: State) -> Done
    ensures { result ≡ read_at_pointer s }
{
    let from = source(s.pointer);
    Done {
        reply: read(s, from).unwrap_or(0),
        state: after_read(s, from),
    }
}
