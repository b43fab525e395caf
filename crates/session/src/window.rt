// Two parts that stand one behind the other, looked at through the 39 bytes that decide whether a record begins there.
ghost use Rattle.std.specs.Prelude.{◌≡◌, ◌++◌, drop};
ghost use Rattle.session_rules.specs.Session.{padded, partial};
ghost use Rattle.session_rules.specs.Portion.{window_of};

use blocks::joined;
use session_rules::session::Window;
use text::record::read_record;
use text_rules::record::Unread;

// From the first byte of a on.
pub fn window(a: &[u8], b: &[u8]) -> Window
    ensures { result ≡ window_of (a.now ++ b.now) }
{
    let n = a.len().min(39);
    Window {
        bytes: joined(&a[..n], b),
        count: n + b.len().min(39 - n),
    }
}

// From a place on, in a or in b; there is nothing behind their end.
pub fn window_at(a: &[u8], b: &[u8], at: usize) -> Window
    ensures { result ≡ window_of (drop at (a.now ++ b.now)) }
{
    if at < a.len() {
        return window(&a[at..], b);
    }
    let n = a.len();
    let k = (at - n).min(b.len());
    window(&a[n..], &b[k..])
}

#[tactic(auto, unfolding(session_rules::specs::Session::partial))]
pub fn is_part(s: &[u8]) -> bool
    ensures { result ≡ partial s.now }
{
    matches!(read_record(s), Err(Unread::Part))
}

// The 38 bytes that hold a part: 0 behind it.
pub fn packed(s: &[u8]) -> [u8; 38]
    ensures { result ≡ padded s.now }
{
    joined(s, &[])
}
