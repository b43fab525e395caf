// An answer: four lines.
ghost use Rattle.std.specs.Prelude.{Bool, ◌≡◌, ◌≤◌, length, [], ◌∷◌, ◌++◌};
ghost use Rattle.text_rules.specs.Names.{alert_name, code_name, end_name, reply_name, therm_name};
ghost use Rattle.text_rules.specs.Answer.{decimal_of, line_text, level, answer_text, shown_text, Front, Put};

use text_rules::answer::Shown;

// The longest answer, of any code and any reply; with a code of one digit it is 33.
pub const LONGEST: usize = 35;

// Bytes as they are. Each of the functions below that puts a text says the same two things of it: a trait that said them once would want a
// type and an impl for each text.
fn put_text(out: &mut [u8], text: &[u8]) -> usize
    requires { length text.now ≤ length out.old }
    ensures { Front text.now out.old out.new result }
{
    out[..text.len()].copy_from_slice(text);
    text.len()
}

// The number of a number's digits.
#[tactic(auto, unfolding(text_rules::specs::Answer::decimal_of))]
fn count_digits(n: u8) -> usize
    ensures { result ≡ length (decimal_of n) }
{
    if n < 10 {
        1
    } else if n < 100 {
        2
    } else {
        3
    }
}

// By hand, as its line is and as digits are read: the library's printing knows no bound of three digits, and asks for its room at each write.
#[tactic(auto, unfolding(text_rules::specs::Answer::decimal_of))]
fn put_decimal(out: &mut [u8], n: u8) -> usize
    requires { length (decimal_of n) ≤ length out.old }
    ensures { Front (decimal_of n) out.old out.new result }
{
    if n < 10 {
        put_text(out, &[48 + n])
    } else if n < 100 {
        put_text(out, &[48 + n / 10, 48 + n % 10])
    } else {
        put_text(out, &[48 + n / 100, 48 + n / 10 % 10, 48 + n % 10])
    }
}

// A name, with its equals sign, and a number.
fn put_line(out: &mut [u8], name: &[u8], n: u8) -> usize
    requires { length (line_text name.now n) ≤ length out.old }
    ensures { Front (line_text name.now n) out.old out.new result }
{
    let i = put_text(out, name);
    let i = i + put_decimal(&mut out[i..], n);
    i + put_text(&mut out[i..], b"\n")
}

// It does not depend on the levels, which are one digit each; the code is any number, as in `Shown`.
#[tactic(auto, using(text_rules::proofs::Size::answer_length, text_rules::proofs::Size::few_digits))]
fn answer_size(code: u8, reply: u8) -> usize
    ensures { (alert therm : Bool) → result ≡ length (answer_text code reply alert therm) }
{
    29 + count_digits(code) + count_digits(reply)
}

fn put_answer(out: &mut [u8], a: Shown) -> usize
    requires { length (shown_text a) ≤ length out.old }
    ensures { Front (shown_text a) out.old out.new result }
{
    let n = put_line(out, b"code=", a.code);
    let n = n + put_line(&mut out[n..], b"reply=", a.reply);
    let n = n + put_line(&mut out[n..], b"alert=", a.alert as u8);
    n + put_line(&mut out[n..], b"therm=", a.therm as u8)
}

pub fn write_answer(out: &mut [u8], a: Shown) -> Option<usize>
    ensures { Put (shown_text a) out.old out.new result }
{
    if out.len() < answer_size(a.code, a.reply) {
        return None;
    }
    Some(put_answer(out, a))
}

// The first line, and the name of the second. In one piece, as the tail is: the same by `put_line` takes 8 to 28 instructions more a record.
#[tactic(auto, unfolding(text_rules::specs::Answer::decimal_of, text_rules::specs::Answer::line_text))]
fn put_head(out: &mut [u8], code: u8) -> usize
    requires in_bounds { 13 ≤ length out.old }
    requires code_bound { code ≤ 9 }
    ensures front { Front (line_text code_name code ++ reply_name) out.old out.new result }
    ensures value { result ≡ 13 }
{
    let mut head = *b"code=0\nreply=";
    head[5] += code;
    put_text(out, &head)
}

// The second line's end, and the last two lines.
#[tactic(auto, unfolding(text_rules::specs::Answer::decimal_of, text_rules::specs::Answer::line_text))]
fn put_tail(out: &mut [u8], alert: bool, therm: bool) -> usize
    requires { 17 ≤ length out.old }
    ensures { Front (((10 ∷ []) ++ line_text alert_name (level alert)) ++ line_text therm_name (level therm)) out.old out.new result }
{
    let mut tail = *b"\nalert=0\ntherm=0\n";
    tail[7] += alert as u8;
    tail[15] += therm as u8;
    put_text(out, &tail)
}

fn put_quickly(out: &mut [u8], a: Shown) -> usize
    requires in_bounds { 35 ≤ length out.old }
    requires code_bound { a.code ≤ 9 }
    ensures { Front (shown_text a) out.old out.new result }
{
    let n = put_head(out, a.code);
    let n = n + put_decimal(&mut out[n..], a.reply);
    n + put_tail(&mut out[n..], a.alert, a.therm)
}

// Quickly: one test of the room for the longest answer, then stores at known places. Where that test fails, or the code has more than one
// digit, the careful way asks for the exact room.
pub fn write_quickly(out: &mut [u8], a: Shown) -> Option<usize>
    ensures { Put (shown_text a) out.old out.new result }
{
    if LONGEST <= out.len() {
        if a.code < 10 {
            return Some(put_quickly(out, a));
        }
    }
    write_answer(out, a)
}

// The line that says how a run ended, by any number: the text knows no codes.
#[tactic(auto, using(text_rules::proofs::Size::line_length, text_rules::proofs::Size::few_digits, text_rules::proofs::Put::none_put))]
pub fn write_end(out: &mut [u8], code: u8) -> Option<usize>
    ensures { Put (line_text end_name code) out.old out.new result }
{
    if out.len() < 5 + count_digits(code) {
        return None;
    }
    Some(put_line(out, b"end=", code))
}
