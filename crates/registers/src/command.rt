// What each of the 256 commands names, read and written, in the order of the rules' tables. Every gap stands here as a range.
ghost use Rattle.std.specs.Prelude.{◌≡◌};
ghost use Rattle.rules.specs.Commands.{source_of, target_of};

use rules::register::{Channel, Register, Source, Target};

#[tactic(auto, unfolding(rules::specs::Commands::source_of))]
pub fn source(command: u8) -> Source
    ensures { result ≡ source_of command }
{
    match command {
        0x03 => Source::Stored(Register::Config),
        0x04 => Source::Stored(Register::Rate),
        0x05 => Source::Stored(Register::LocalHigh),
        0x06 => Source::Stored(Register::LocalLow),
        0x07 => Source::Stored(Register::RemoteHigh),
        0x08 => Source::Stored(Register::RemoteLow),
        0x11 => Source::Stored(Register::RemoteOffset),
        0x12 => Source::Stored(Register::RemoteOffsetFine),
        0x13 => Source::Stored(Register::RemoteHighFine),
        0x14 => Source::Stored(Register::RemoteLowFine),
        0x19 => Source::Stored(Register::RemoteTherm),
        0x20 => Source::Stored(Register::LocalTherm),
        0x21 => Source::Stored(Register::Hysteresis),
        0x22 => Source::Stored(Register::Consecutive),
        0x00 => Source::Value(Channel::Local),
        0x01 => Source::Value(Channel::Remote),
        0x02 => Source::Status,
        0x10 => Source::ValueFine(Channel::Remote),
        0xfe => Source::Maker,
        0xff => Source::Revision,
        0x09..=0x0f | 0x15..=0x18 | 0x1a..=0x1f | 0x23..=0xfd => Source::Hole,
    }
}

#[tactic(auto, unfolding(rules::specs::Commands::target_of))]
pub fn target(command: u8) -> Target
    ensures { result ≡ target_of command }
{
    match command {
        0x09 => Target::Stored(Register::Config),
        0x0a => Target::Stored(Register::Rate),
        0x0b => Target::Stored(Register::LocalHigh),
        0x0c => Target::Stored(Register::LocalLow),
        0x0d => Target::Stored(Register::RemoteHigh),
        0x0e => Target::Stored(Register::RemoteLow),
        0x11 => Target::Stored(Register::RemoteOffset),
        0x12 => Target::Stored(Register::RemoteOffsetFine),
        0x13 => Target::Stored(Register::RemoteHighFine),
        0x14 => Target::Stored(Register::RemoteLowFine),
        0x19 => Target::Stored(Register::RemoteTherm),
        0x20 => Target::Stored(Register::LocalTherm),
        0x21 => Target::Stored(Register::Hysteresis),
        0x22 => Target::Stored(Register::Consecutive),
        0x0f => Target::OneShot,
        0x00..=0x08 | 0x10 | 0x15..=0x18 | 0x1a..=0x1f | 0x23..=0xff => Target::Nowhere,
    }
}
