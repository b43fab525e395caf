// A session in 256 bytes.
ghost use Rattle.std.specs.Prelude.{◌≡◌, take};
ghost use Rattle.blocks.specs.Blocks.{word_at};
ghost use Rattle.saved_rules.specs.Layout.{same_bytes};
ghost use Rattle.session_rules.specs.Bytes.{bytes_of, bytes_over, head_of, held_in, marks_of};
ghost use Rattle.session_rules.specs.Session.{padded};

use crate::window::packed;
use blocks::{byte_at, joined, put, word};
use saved::load::{flag, load};
use saved::save::{same, save};
use session_rules::session::Session;

// Four bytes, the low one first.
fn word_at(b: &[u8], i: u8) -> usize
    ensures { result ≡ word_at b.now i }
{
    let at = usize::from(i);
    let bytes = [
        byte_at(b, at),
        byte_at(b, at + 1),
        byte_at(b, at + 2),
        byte_at(b, at + 3),
    ];
    u32::from_le_bytes(bytes) as usize
}

pub fn load_session(b: &[u8]) -> Session
    ensures { result ≡ held_in b.now }
{
    let behind = b.len().min(128);
    let place = b.len().min(16);
    Session {
        chip: load(&b[behind..]),
        records: word_at(b, 4),
        used: word_at(b, 8),
        written: word_at(b, 12),
        ended: flag(b, 1),
        stopped: flag(b, 2),
        count: usize::from(byte_at(b, 3)),
        carried: packed(&b[place..]),
    }
}

// The layout's number, the two marks, how many bytes are carried, and the counts.
fn marks(s: Session) -> [u8; 16]
    ensures { result ≡ marks_of s }
{
    let first = [
        1,
        u8::from(s.ended),
        u8::from(s.stopped),
        (s.count % 256) as u8,
    ];
    let counts: [u8; 8] = joined(&word(s.records), &word(s.used));
    let before: [u8; 12] = joined(&first, &counts);
    joined(&before, &word(s.written))
}

// What is no part of the chip.
#[tactic(auto, unfolding(session_rules::specs::Bytes::head_of))]
fn head(s: Session) -> [u8; 128]
    ensures { result ≡ head_of s }
{
    let n = s.count.min(38);
    joined(&marks(s), &s.carried[..n])
}

// Its size is the C header's.
#[tactic(auto, unfolding(session_rules::specs::Bytes::bytes_of))]
fn saved_session(s: Session) -> [u8; 256]
    ensures { result ≡ bytes_of s }
{
    let mut chip = [0u8; 128];
    save(s.chip, &mut chip);
    joined(&head(s), &chip)
}

// Whether bytes are what a session is saved as.
pub fn holds_session(s: Session, b: &[u8]) -> bool
    ensures { result ≡ same_bytes (bytes_of s) b.now }
{
    same(&saved_session(s), b)
}

// A session into 256 bytes; any other length is left as it is.
pub fn save_session(s: Session, out: &mut [u8])
    ensures { out.new ≡ bytes_over (bytes_of s) out.old }
{
    put(&saved_session(s), out);
}
