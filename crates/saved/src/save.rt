// A state as bytes, and whether bytes are what a state is saved as.
ghost use Rattle.std.specs.Prelude.{map, ◌≡◌, ◌++◌};
ghost use Rattle.rules.specs.Rows.{registers};
ghost use Rattle.rules.specs.State.{channel_at, stored_of};
ghost use Rattle.saved_rules.specs.Layout as layout;
ghost use Rattle.saved_rules.specs.Layout.{channel_of, head_of, same_bytes, save_of, saved_over};

use blocks::{joined, put};
use parts::channels::channel_at;
use rules::register::Channel;
use rules::state::{ChannelState, State};

pub fn bit(set: bool) -> u8
    ensures { result ≡ layout.flag set }
{
    u8::from(set)
}

// What belongs to no channel, the layout's number first.
fn head(s: State) -> [u8; 20]
    ensures { result ≡ head_of s ++ map (stored_of s) registers }
{
    [
        2,
        s.address,
        s.pointer,
        bit(s.busy),
        s.runs,
        bit(s.latch),
        s.config,
        s.rate,
        s.localhigh,
        s.locallow,
        s.remotehigh,
        s.remotelow,
        s.remoteoffset,
        s.remoteoffsetfine,
        s.remotehighfine,
        s.remotelowfine,
        s.remotetherm,
        s.localtherm,
        s.hysteresis,
        s.consecutive,
    ]
}

// A channel's eleven bytes.
fn channel(c: ChannelState) -> [u8; 11]
    ensures { result ≡ channel_of c }
{
    let [low, high] = c.value.to_le_bytes();
    [
        low,
        high,
        bit(c.converted),
        bit(c.high.found),
        bit(c.high.flag),
        bit(c.low.found),
        bit(c.low.flag),
        bit(c.diode.found),
        bit(c.diode.flag),
        bit(c.therm),
        bit(c.therm2),
    ]
}

// All bytes are compared, so that the compiler takes many at once: by `==` an event from C took 67 instructions more, and a portion of
// 4 KiB more than 1.1 times its replay (docs/BENCHMARK.md).
pub fn same(a: &[u8], b: &[u8]) -> bool
    ensures { result ≡ same_bytes a.now b.now }
{
    if a.len() != b.len() {
        return false;
    }
    let mut all = true;
    for i in 0..a.len() {
        all &= a[i] == b[i];
    }
    all
}

fn channels(s: State) -> [u8; 22]
    ensures { result ≡ channel_of (channel_at s Channel.Local) ++ channel_of (channel_at s Channel.Remote) }
{
    let local = channel(channel_at(s, Channel::Local));
    let remote = channel(channel_at(s, Channel::Remote));
    joined(&local, &remote)
}

// A state saved: 0 behind what has a meaning. Its size is the C header's.
#[tactic(auto, unfolding(saved_rules::specs::Layout::save_of, saved_rules::specs::Layout::front_of))]
fn saved(s: State) -> [u8; 128]
    ensures { result ≡ save_of s }
{
    joined(&head(s), &channels(s))
}

// Whether bytes are what a state is saved as. A session has its own two lines for it, by its own definition of the bytes.
pub fn holds(s: State, b: &[u8]) -> bool
    ensures { result ≡ same_bytes (save_of s) b.now }
{
    same(&saved(s), b)
}

// A state into 128 bytes; any other length is left as it is. A session has its own line, over its own bytes.
pub fn save(s: State, out: &mut [u8])
    ensures { out.new ≡ saved_over (save_of s) out.old }
{
    put(&saved(s), out);
}
