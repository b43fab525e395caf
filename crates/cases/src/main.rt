// Runs the hand-worked cases of tests/cases.txt through the compiled chip and writes every answer. Its input is those cases as
// numbers: a line of 30 bytes says what to do and has four numbers, each a sign and five digits behind a space.

#![tactic(auto)]

ghost use Rattle.std.specs.Prelude.{◌≤◌, length};

use rules::answer::Answer;
use rules::event::Numbers;
use rules::state::State;
use std::io::{self, Read, Write};

fn put_answer<W: Write>(out: &mut W, a: Answer) -> io::Result<()> {
    let code = chip::code_number(a.code);
    // both lines in one piece: each piece of the text is a write of its own
    let lines = match (a.alert, a.therm) {
        (false, false) => " 0 0",
        (false, true) => " 0 1",
        (true, false) => " 1 0",
        (true, true) => " 1 1",
    };
    writeln!(out, "{code} {}{lines}", a.reply)
}

// The digit at a place of the line; past its end, 0.
fn digit(line: &[u8], at: usize) -> u32
    ensures { result ≤ 15 }
{
    line.get(at).map_or(0, |b| u32::from(b % 16))
}

// The size of the number k of the line, and the number.
fn size(line: &[u8], k: usize) -> u32
    requires { k ≤ 3 }
    ensures { result ≤ 166665 }
{
    let at = k * 7 + 3;
    digit(line, at) * 10000
        + digit(line, at + 1) * 1000
        + digit(line, at + 2) * 100
        + digit(line, at + 3) * 10
        + digit(line, at + 4)
}

fn number(line: &[u8], k: usize) -> i32
    requires { k ≤ 3 }
{
    let n = size(line, k) as i32;
    if line.get(k * 7 + 2) == Some(&b'-') {
        -n
    } else {
        n
    }
}

// A field changed by hand, to reach what code 6 refuses: no event does. Its number stands in the line, and is read by this match alone.
fn spoilt(s: State, field: u32, n: u32) -> State {
    let b = (n % 256) as u8;
    let w = (n % 65536) as u16;
    let set = b == 1;
    let mut t = s;
    match field {
        0 => t.address = b,
        1 => t.remotevalue = w,
        2 => t.localvalue = w,
        3 => t.runs = b,
        4 => t.config = b,
        5 => t.remotehighfine = b,
        6 => t.remotelowfine = b,
        7 => t.remoteoffsetfine = b,
        8 => t.localdiodefound = set,
        _ => t.localdiodeflag = set,
    }
    t
}

fn event<W: Write>(out: &mut W, s: State, line: &[u8]) -> io::Result<State> {
    let e = Numbers {
        kind: number(line, 0),
        a: number(line, 1),
        b: number(line, 2),
        c: number(line, 3),
    };
    let answer = chip::step(s, e);
    put_answer(out, answer)?;
    Ok(answer.state)
}

fn begun<W: Write>(out: &mut W, line: &[u8]) -> io::Result<State> {
    let made = chip::fresh(number(line, 0));
    writeln!(out, "fresh {}", chip::code_number(made.code))?;
    Ok(made.state)
}

fn spoil<W: Write>(out: &mut W, s: State, line: &[u8]) -> io::Result<State> {
    out.write_all(b"set\n")?;
    Ok(spoilt(s, size(line, 0), size(line, 1)))
}

fn titled<W: Write>(out: &mut W, s: State, line: &[u8]) -> io::Result<State> {
    writeln!(out, "case {}", size(line, 0))?;
    Ok(s)
}

// One line: an event, a fresh state, a field spoilt, or a new case.
fn row<W: Write>(out: &mut W, s: State, line: &[u8]) -> io::Result<State> {
    // what the line says to do, read once, by this match
    match digit(line, 0) {
        0 => event(out, s, line),
        1 => begun(out, line),
        2 => spoil(out, s, line),
        _ => titled(out, s, line),
    }
}

// Fills a buffer, as far as the reader goes. A read that fails counts as the end. It stands in `console` too: a function that another crate
// calls has to leave one answer, and no contract can say which bytes a stream gives.
fn fill<R: Read>(from: &mut R, to: &mut [u8]) -> usize
    ensures { result ≤ length to.new }
{
    let mut n = 0;
    // no index is counted: each round moves by what was read
    while n < to.len() {
        let k = from.read(&mut to[n..]).unwrap_or(0);
        if k == 0 {
            return n;
        }
        n += k;
    }
    n
}

fn main(rt: HostRuntime) -> io::Result<()> {
    let mut input = [0u8; 65536];
    let n = fill(&mut rt.stdin(), &mut input);
    let mut out = io::writer(&rt);
    let mut s = chip::fresh(0).state;
    for line in input[..n].chunks(30) {
        s = row(&mut out, s, line)?;
    }
    Ok(())
}
