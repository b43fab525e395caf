// Document 01, Values: what a measurement becomes in a channel's value register, and the register's two bytes.

#![tactic(auto)]

ghost use Rattle.std.specs.Prelude.{◌≡◌, ◌≤◌, pos, ◌+ℤ◌};
ghost use Rattle.rules.specs.Channels.{scale_of};
ghost use Rattle.rules.specs.Values.{offset_of, top_of, shift_of, clamp_of, code_of, high_byte_of, low_byte_of};

use rules::register::Channel;

// The codes to a degree. Its bounds are for callers, whose products and divisions rest on them.
pub fn scale(channel: Channel) -> u16
    ensures value { result ≡ scale_of channel }
    ensures lower_bound { (1 ≤ result) × (result ≤ 4) }
{
    match channel {
        Channel::Local => 1,
        Channel::Remote => 4,
    }
}

// Signed quarters.
#[tactic(auto, unfolding(rules::specs::Values::offset_of))]
pub fn offset(high: u8, fine: u8) -> i16
    ensures { result ≡ offset_of high fine }
{
    i16::from(high.cast_signed()) * 4 + i16::from(fine / 64)
}

// The largest code of the channel's range.
pub fn top(channel: Channel, wide: bool) -> u16
    ensures { result ≡ top_of (scale_of channel) wide }
{
    let s = scale(channel);
    if wide { s * 256 - 1 } else { s * 128 - 1 }
}

// What the extended range adds.
fn shift(channel: Channel, wide: bool) -> u16
    ensures { result ≡ shift_of (scale_of channel) wide }
{
    let s = scale(channel);
    if wide { s * 64 } else { 0 }
}

fn clamp(top: u16, x: i32) -> u16
    ensures { result ≡ clamp_of top x }
{
    x.clamp(0, i32::from(top)) as u16
}

// Three numbers of 16 bits: their sum is exact.
fn sum(sample: i16, offset: i16, shift: u16) -> i32
    ensures { result ≡ sample +ℤ offset +ℤ pos shift }
{
    i32::from(sample) + i32::from(offset) + i32::from(shift)
}

// The clamp comes after the whole sum.
#[tactic(auto, unfolding(rules::specs::Values::code_of))]
pub fn code(channel: Channel, wide: bool, offset: i16, sample: i16) -> u16
    ensures { result ≡ code_of (scale_of channel) wide offset sample }
{
    clamp(
        top(channel, wide),
        sum(sample, offset, shift(channel, wide)),
    )
}

pub fn high_byte(channel: Channel, code: u16) -> u8
    ensures { result ≡ high_byte_of (scale_of channel) code }
{
    (code / scale(channel) % 256) as u8
}

pub fn low_byte(channel: Channel, code: u16) -> u8
    ensures { result ≡ low_byte_of (scale_of channel) code }
{
    (code % scale(channel) * 64) as u8
}
