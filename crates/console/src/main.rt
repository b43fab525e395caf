// A trace from standard input, its answers to standard output. One byte more than the limit is read, so that a longer trace is
// seen to be longer; what lies beyond is left unread. A read that fails counts as the end of the input; a write that fails is
// main's error. That the bytes read and written are those of the two streams is the C library's word: no contract can say it.

#![tactic(auto)]

mod answers;

ghost use Rattle.std.specs.Prelude.{◌≤◌, length};

use answers::{LONGEST, MOST, answer_trace};
use std::io::{self, Read, Write};

// Fills a buffer, as far as the reader goes. It stands in `cases` too: a function that another crate calls has to leave one answer, and no
// contract can say which bytes a stream gives.
fn fill<R: Read>(from: &mut R, to: &mut [u8]) -> usize
    ensures { result ≤ length to.new }
{
    let mut n = 0;
    // no index is counted: each round moves by what was read
    while n < to.len() {
        let k = from.read(&mut to[n..]).unwrap_or(0);
        if k == 0 {
            return n;
        }
        n += k;
    }
    n
}

fn main(rt: HostRuntime) -> io::Result<()> {
    let mut input = [0u8; MOST + 1];
    let n = fill(&mut rt.stdin(), &mut input);
    let mut out = [0u8; LONGEST];
    let written = answer_trace(&input[..n], &mut out);
    io::writer(&rt).write_all(&out[..written])
}
