// A play over two parts that stand one behind the other.
ghost use Rattle.std.specs.Prelude.{◌++◌};
ghost use Rattle.replay_rules.specs.Play.{Ran};

use crate::stops::is_full;
use crate::window::window;
use replay::play::play;
use replay_rules::play::Played;
use rules::state::State;

// While the next record begins in the first part, a window of 39 bytes, which it fits in, is played; the rest is one play.
pub fn play_joined(s: State, first: &[u8], second: &[u8], out: &mut [u8]) -> Played
    ensures { Ran s (first.now ++ second.now) out.old out.new result }
{
    let mut state = s;
    let mut records: usize = 0;
    let mut used: usize = 0;
    let mut written: usize = 0;
    // no index is counted: each round moves by what its play used
    while used < first.len() {
        let w = window(&first[used..], second);
        let p = play(state, &w.bytes[..w.count], &mut out[written..]);
        if is_full(p.stop) | (p.used == 0) {
            return Played {
                stop: p.stop,
                records: records + p.records,
                used: used + p.used,
                written: written + p.written,
                state: p.state,
            };
        }
        state = p.state;
        records += p.records;
        used += p.used;
        written += p.written;
    }
    let at = used - first.len();
    let q = play(state, &second[at..], &mut out[written..]);
    Played {
        stop: q.stop,
        records: records + q.records,
        used: used + q.used,
        written: written + q.written,
        state: q.state,
    }
}
