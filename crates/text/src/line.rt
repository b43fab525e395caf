// A line: a name, an equals sign, a number.
ghost use Rattle.std.specs.Prelude.{◌≡◌, drop};
ghost use Rattle.text_rules.specs.Number.{longer, number_of};
ghost use Rattle.text_rules.specs.Line.{behind_name, fit_of, line_of};

use crate::number::number;
use text_rules::line::Fit;
use text_rules::record::Unread;

#[inline(always)]
pub fn fit_name(name: &[u8], s: &[u8]) -> Fit
    ensures { result ≡ fit_of name.now s.now }
{
    if s.starts_with(name) {
        Fit::Yes
    } else if name.starts_with(s) {
        Fit::Begun
    } else {
        Fit::No
    }
}

// A number and the end of its line, behind k bytes. A part of no more than them could still get one.
#[tactic(auto, using(text_rules::proofs::Lines::number_within))]
#[inline(never)]
pub fn behind(k: usize, s: &[u8]) -> Result<(i32, usize), Unread>
    ensures { result ≡ longer k (number_of (drop k s.now)) }
{
    if s.len() <= k {
        return Err(Unread::Part);
    }
    let (value, n) = number(&s[k..])?;
    Ok((value, k + n))
}

// The line, by its name's fit and what stands behind the name. The caller reads both: so `behind` is one function for all names.
#[inline(always)]
pub fn line(fit: Fit, behind: Result<(i32, usize), Unread>) -> Result<(i32, usize), Unread>
    ensures { result ≡ behind_name fit behind }
{
    match fit {
        Fit::Yes => behind,
        Fit::Begun => Err(Unread::Part),
        Fit::No => Err(Unread::Malformed),
    }
}

// A line of that name. It is laid out at each call, so that a known name is compared in one piece.
#[inline(always)]
#[tactic(auto, unfolding(text_rules::specs::Line::line_of))]
pub(crate) fn named(name: &[u8], s: &[u8]) -> Result<(i32, usize), Unread>
    ensures { result ≡ line_of name.now s.now }
{
    line(fit_name(name, s), behind(name.len(), s))
}
