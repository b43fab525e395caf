// A number and the end of its line.
ghost use Rattle.std.specs.Prelude.{◌<◌, ◌≡◌};
ghost use Rattle.text_rules.specs.Number.{digits_of, bad_zero, signed_as, plain_of, number_of};

use blocks::byte_at;
use text_rules::number::Digits;
use text_rules::record::Unread;

// How digits are gathered stands here alone. Past the end a byte reads as 0, which is no digit and no sign.
fn gather(s: &[u8]) -> Digits
    ensures { result ≡ digits_of s.now }
{
    let mut value = 0;
    for count in 0..5 {
        let b = byte_at(s, count);
        if !b.is_ascii_digit() {
            return Digits { value, count };
        }
        value = value * 10 + (b - 48) as u32;
    }
    Digits { value, count: 5 }
}

// A first digit 0 where the number has no right to it.
fn bad_zero(minus: bool, s: &[u8], count: usize) -> bool
    ensures { result ≡ bad_zero minus s.now count }
{
    byte_at(s, 0) == 48 && (minus || 1 < count)
}

// The digits' number, with its sign.
fn signed(minus: bool, value: u32) -> i32
    requires { value < 100000 }
    ensures { result ≡ signed_as minus value }
{
    if minus { -(value as i32) } else { value as i32 }
}

// A number behind its sign, and the end of its line.
#[tactic(auto, using(text_rules::proofs::Digits::digits_small), unfolding(text_rules::specs::Number::plain_of))]
fn plain(minus: bool, s: &[u8]) -> Result<(i32, usize), Unread>
    ensures { result ≡ plain_of minus s.now }
{
    let Digits { value, count } = gather(s);
    if bad_zero(minus, s, count) {
        return Err(Unread::Malformed);
    }
    if s.len() <= count {
        return Err(Unread::Part);
    }
    if count == 0 {
        return Err(Unread::Malformed);
    }
    if s[count] != 10 {
        return Err(Unread::Malformed);
    }
    Ok((signed(minus, value), count + 1))
}

#[tactic(auto, using(text_rules::proofs::Lines::plain_within), unfolding(text_rules::specs::Number::number_of))]
pub fn number(s: &[u8]) -> Result<(i32, usize), Unread>
    ensures { result ≡ number_of s.now }
{
    if byte_at(s, 0) != 45 {
        return plain(false, s);
    }
    let (value, n) = plain(true, &s[1..])?;
    Ok((value, 1 + n))
}
