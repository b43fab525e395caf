// Bytes: the one at a place, numbers as bytes, parts side by side in a block of a known size, and a block into a buffer that a caller lends.

#![tactic(auto)]

ghost use Rattle.std.specs.Prelude.{◌≡◌, ◌++◌, get_or};
ghost use Rattle.blocks.specs.Blocks as rule;
ghost use Rattle.blocks.specs.Blocks.{over, filled};

// Past the end a byte reads as 0.
pub fn byte_at(b: &[u8], i: usize) -> u8
    ensures { result ≡ get_or b.now i 0 }
{
    b.get(i).copied().unwrap_or(0)
}

// Four bytes, the low one first.
pub fn word(n: usize) -> [u8; 4]
    ensures { result ≡ rule.word n }
{
    let [a, b, c, d, ..] = n.to_le_bytes();
    [a, b, c, d]
}

// The first bytes of two parts, one behind the other, and 0 where there are no more.
pub fn joined<const N: usize>(a: &[u8], b: &[u8]) -> [u8; N]
    ensures { result ≡ filled N (a.now ++ b.now) }
{
    let mut all = [0u8; N];
    let room = &mut all[..];
    let n = a.len().min(room.len());
    let k = b.len().min(room.len() - n);
    room[..n].copy_from_slice(&a[..n]);
    room[n..n + k].copy_from_slice(&b[..k]);
    all
}

// A block into a buffer of its size; any other buffer is left as it is.
pub fn put<const N: usize>(block: &[u8; N], out: &mut [u8])
    ensures { out.new ≡ over N block.now out.old }
{
    if out.len() == N {
        out.copy_from_slice(block);
    }
}
