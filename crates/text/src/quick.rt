// A record read quickly: one test of what is left, then four lines with no test of a place. 39 bytes are the longest record, so none of
// these places can lie behind the end. What is not read so may still be a record, or a part of one: the careful reader tells.
ghost use Rattle.std.specs.Prelude.{◌+◌, ◌-◌, ◌*◌, ◌≤◌, ◌<◌, ◌≡◌, IfSome, Ok, false, leb, pos, [], ◌∷◌, length};
ghost use Rattle.text_rules.specs.Number.{is_digit, plain_of, number_of};
ghost use Rattle.text_rules.specs.Line.{line_of};
ghost use Rattle.text_rules.specs.Record.{record_of};

use crate::record::read_record;
use text_rules::record::{Record, Unread};

// What a digit is worth; any other byte is worth more than 9. The test stands at each digit: an Option here would be tested twice.
fn worth(b: u8) -> u32
    ensures b_value { is_digit b ≡ leb result 9 }
    ensures value { result ≤ 9 → result ≡ b - 48 }
{
    b.wrapping_sub(48) as u32
}

// Digits and the byte 10 that ends them. One after the other, each byte first asked whether it ends the line: most numbers are short, and
// a loop would ask for the end of the digits too.
#[inline(always)]
#[tactic(auto, unfolding(text_rules::specs::Number::plain_of, text_rules::specs::Number::digits_of))]
fn natural(s: &[u8]) -> Option<(u32, usize)>
    requires { 6 ≤ length s.now }
    ensures { IfSome result (λ r. (plain_of false s.now ≡ Ok (pos r.0, r.1)) × (r.0 < 100000) × (r.1 ≤ 6)) }
{
    let v = worth(s[0]);
    if 9 < v {
        return None;
    }
    let b = s[1];
    if b == 10 {
        return Some((v, 2));
    }
    if v == 0 {
        return None;
    }
    let d = worth(b);
    if 9 < d {
        return None;
    }
    let v = v * 10 + d;
    let b = s[2];
    if b == 10 {
        return Some((v, 3));
    }
    let d = worth(b);
    if 9 < d {
        return None;
    }
    let v = v * 10 + d;
    let b = s[3];
    if b == 10 {
        return Some((v, 4));
    }
    let d = worth(b);
    if 9 < d {
        return None;
    }
    let v = v * 10 + d;
    let b = s[4];
    if b == 10 {
        return Some((v, 5));
    }
    let d = worth(b);
    if 9 < d {
        return None;
    }
    let v = v * 10 + d;
    if s[5] == 10 {
        return Some((v, 6));
    }
    None
}

// Behind a minus sign; a first digit 0 has no right there.
#[inline(always)]
fn negative(s: &[u8]) -> Option<(i32, usize)>
    requires { 7 ≤ length s.now }
    ensures { IfSome result (λ r. (number_of s.now ≡ Ok r) × (r.1 ≤ 7)) }
{
    if s[0] != 45 {
        return None;
    }
    if s[1] == 48 {
        return None;
    }
    let (value, n) = natural(&s[1..])?;
    Some((-(value as i32), 1 + n))
}

// Digits are asked for first, and a sign only where there are none.
#[inline(always)]
#[tactic(auto, using(crate::proofs::Read::unsigned_number))]
fn number(s: &[u8]) -> Option<(i32, usize)>
    requires { 7 ≤ length s.now }
    ensures { IfSome result (λ r. (number_of s.now ≡ Ok r) × (r.1 ≤ 7)) }
{
    match natural(s) {
        Some((value, n)) => Some((value as i32, n)),
        None => negative(s),
    }
}

// A line whose name is one letter. Laid out at each of its four calls, so that the record stays in registers; and the name compared as one
// number, since two bytes of a slice would be compared one by one.
#[inline(always)]
fn line(letter: u8, s: &[u8]) -> Option<(i32, usize)>
    requires { 9 ≤ length s.now }
    ensures { IfSome result (λ r. (line_of (letter ∷ 61 ∷ []) s.now ≡ Ok r) × (r.1 ≤ 9)) }
{
    if u16::from_le_bytes([s[0], s[1]]) != u16::from_le_bytes([letter, b'=']) {
        return None;
    }
    let (value, n) = number(&s[2..])?;
    Some((value, 2 + n))
}

// "kin" and the line of d, and those of a, b and c.
fn read_lines(s: &[u8]) -> Option<(Record, usize)>
    requires { 39 ≤ length s.now }
    ensures { IfSome result (λ r. record_of s.now ≡ Ok r) }
{
    if u32::from_le_bytes([s[0], s[1], s[2], s[3]]) != u32::from_le_bytes(*b"kind") {
        return None;
    }
    let (kind, n) = line(b'd', &s[3..])?;
    let n = 3 + n;
    let (a, m) = line(b'a', &s[n..])?;
    let n = n + m;
    let (b, m) = line(b'b', &s[n..])?;
    let n = n + m;
    let (c, m) = line(b'c', &s[n..])?;
    Some((Record { kind, a, b, c }, n + m))
}

pub fn read_quickly(s: &[u8]) -> Result<(Record, usize), Unread>
    ensures { result ≡ record_of s.now }
{
    if 39 <= s.len() {
        if let Some(found) = read_lines(s) {
            return Ok(found);
        }
    }
    read_record(s)
}
