// The state that bytes hold.
ghost use Rattle.std.specs.Prelude.{◌≡◌, ◌+◌, ◌*◌, get_or};
ghost use Rattle.saved_rules.specs.Layout.{channel_from, is_set, mark_at, state_at};

use blocks::byte_at;
use parts::channels::with_channel;
use rules::register::Channel;
use rules::state::{ChannelState, Mark, State};

// Past the end a byte reads as 0, and is no flag that stands.
pub fn flag(b: &[u8], i: usize) -> bool
    ensures { result ≡ is_set (get_or b.now i 0) }
{
    byte_at(b, i) == 1
}

// Two bytes, the low one first; a session has words of four, each by one call of the library.
fn word(b: &[u8], i: u8) -> u16
    ensures { result ≡ get_or b.now i 0 + 256 * get_or b.now (i + 1) 0 }
{
    let at = usize::from(i);
    u16::from_le_bytes([byte_at(b, at), byte_at(b, at + 1)])
}

fn mark(b: &[u8], found: usize, stands: usize) -> Mark
    ensures { result ≡ mark_at b.now found stands }
{
    Mark {
        found: flag(b, found),
        flag: flag(b, stands),
    }
}

// A channel from its eleven bytes.
fn channel(b: &[u8], i: u8) -> ChannelState
    ensures { result ≡ channel_from b.now i }
{
    let at = usize::from(i);
    ChannelState {
        value: word(b, i),
        converted: flag(b, at + 2),
        high: mark(b, at + 3, at + 4),
        low: mark(b, at + 5, at + 6),
        diode: mark(b, at + 7, at + 8),
        therm: flag(b, at + 9),
        therm2: flag(b, at + 10),
    }
}

// Laid out where it is called: there the length is known, and no byte's place is tested.
#[tactic(auto, unfolding(saved_rules::specs::Layout::state_at))]
#[inline(always)]
pub fn load(b: &[u8]) -> State
    ensures { result ≡ state_at b.now }
{
    let s = State {
        address: byte_at(b, 1),
        pointer: byte_at(b, 2),
        busy: flag(b, 3),
        runs: byte_at(b, 4),
        latch: flag(b, 5),
        config: byte_at(b, 6),
        rate: byte_at(b, 7),
        localhigh: byte_at(b, 8),
        locallow: byte_at(b, 9),
        remotehigh: byte_at(b, 10),
        remotelow: byte_at(b, 11),
        remoteoffset: byte_at(b, 12),
        remoteoffsetfine: byte_at(b, 13),
        remotehighfine: byte_at(b, 14),
        remotelowfine: byte_at(b, 15),
        remotetherm: byte_at(b, 16),
        localtherm: byte_at(b, 17),
        hysteresis: byte_at(b, 18),
        consecutive: byte_at(b, 19),
        ..State::default()
    };
    let s = with_channel(s, Channel::Local, channel(b, 20));
    with_channel(s, Channel::Remote, channel(b, 31))
}
