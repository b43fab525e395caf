// A record: four lines.
ghost use Rattle.std.specs.Prelude.{◌≡◌};
ghost use Rattle.text_rules.specs.Record.{record_of};

use crate::line::named;
use text_rules::record::{Record, Unread};

// The part starts at the current place, and each line is read from where the one before it ended.
#[tactic(auto, using(text_rules::proofs::Lines::line_within), unfolding(text_rules::specs::Record::record_of))]
pub fn read_record(s: &[u8]) -> Result<(Record, usize), Unread>
    ensures { result ≡ record_of s.now }
{
    let (kind, n) = named(b"kind=", s)?;
    let (a, m) = named(b"a=", &s[n..])?;
    let n = n + m;
    let (b, m) = named(b"b=", &s[n..])?;
    let n = n + m;
    let (c, m) = named(b"c=", &s[n..])?;
    Ok((Record { kind, a, b, c }, n + m))
}
