// A trace as it arrives: a session is 256 bytes that the caller lends.
ghost use Rattle.std.specs.Prelude.{◌≡◌, ◌++◌};
ghost use Rattle.blocks.specs.Blocks.{word};
ghost use Rattle.session_rules.specs.Bytes.{bytes_over};
ghost use Rattle.session_rules.specs.Portion.{fed_code};
ghost use Rattle.session_rules.specs.Face.{FeedDone, OpenDone, feed_into, is_end, is_flag, open_of, opening_from, progress_over};

use blocks::{joined, put, word};
use chip::code_number;
use replay::report::write_report;
use rules::answer::Code;
use session::held::{holds_session, load_session, save_session};
use session::portion::{feed, refused_with};
use session::session::open;
use session_rules::session::{Opened, Stop};

// Zeros, which are no session, where none was opened.
fn place_session(opened: Opened, out: &mut [u8])
    ensures { out.new ≡ bytes_over (opening_from opened).session out.old }
{
    if opened.code == Code::Done {
        save_session(opened.session, out);
    } else {
        put(&[0; 256], out);
    }
}

#[unsafe(no_mangle)]
pub extern "C" fn dlaveth_open(address: i32, session: &mut [u8]) -> i32
    ensures { OpenDone (open_of address session.old) result session.new }
{
    if session.len() != 256 {
        return 2;
    }
    let opened = open(address);
    place_session(opened, session);
    i32::from(code_number(opened.code))
}

fn is_end(end: i32) -> bool
    ensures { result ≡ is_end end }
{
    end == 1
}

fn is_flag(end: i32) -> bool
    ensures { result ≡ is_flag end }
{
    (end == 0) | (end == 1)
}

// A portion's code, as its report and C have it. A replay has its own, over its own type of what stops it.
fn number(stop: Option<Stop>) -> u8
    ensures { result ≡ fed_code stop }
{
    match stop {
        Some(stop) => stop as u8,
        None => 0,
    }
}

// Two numbers of four bytes each, low byte first, into 8; any other length is left as it is.
fn write_progress(progress: &mut [u8], taken: usize, written: usize)
    ensures { progress.new ≡ progress_over (word taken ++ word written) progress.old }
{
    let all: [u8; 8] = joined(&word(taken), &word(written));
    put(&all, progress);
}

// A refusal writes nothing in any buffer.
#[unsafe(no_mangle)]
pub extern "C" fn dlaveth_feed(
    session: &mut [u8],
    portion: &[u8],
    end: i32,
    output: &mut [u8],
    report: &mut [u8],
    progress: &mut [u8],
) -> i32
    ensures { FeedDone (feed_into session.old portion.now end output.old report.old progress.old) result session.new output.new report.new progress.new }
{
    if (session.len() != 256) | (report.len() != 16) | (progress.len() != 8) | !is_flag(end) {
        return 2;
    }
    let s = load_session(session);
    if !holds_session(s, session) {
        return 6;
    }
    if let Some(stop) = refused_with(s, portion.len()) {
        return i32::from(number(Some(stop)));
    }
    let f = feed(s, portion, is_end(end), output);
    let after = f.session;
    let code = number(f.stop);
    save_session(after, session);
    write_report(report, code, after.records, after.used, after.written);
    write_progress(progress, f.taken, f.written);
    i32::from(code)
}
