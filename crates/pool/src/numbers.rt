// Little-endian numbers: of two bytes, and of eight bytes with a sign.
// Both are read at a place of a slice.
ghost use Rattle.std.specs.Prelude.{◌≡◌, ◌+◌, ◌≤◌, ◌<◌, length};
ghost use Rattle.pool.specs.Numbers.{le_at, u16_at, signed_of};
ghost use Rattle.pool.specs.Readers.{sign_of};

use base::slices::byte_at;

// The number of the two bytes at `i`.
#[tactic(auto, using(crate::proofs::NumberLaws::two_bytes))]
pub fn u16_at(bytes: &[u8], i: usize) -> usize
    requires { i + 2 ≤ length bytes.now }
    ensures { (result ≡ u16_at bytes.now i) × (result < 65536) }
{
    usize::from(u16::from_le_bytes([bytes[i], bytes[i + 1]]))
}

// The number, with its sign, of the eight bytes from `i` on. Those past the end are 0. (The eight are written out: with `array::from_fn` in their
// place the proof did not close.)
#[tactic(auto, using(crate::proofs::NumberLaws::sign_eight, crate::proofs::NumberLaws::eight_bytes))]
pub fn signed_at(bytes: &[u8], i: usize) -> i64
    requires { i ≤ length bytes.now }
    ensures { sign_of result ≡ signed_of 8 (le_at 8 bytes.now i) }
{
    let byte = |k: usize| byte_at(bytes, i + k);
    i64::from_le_bytes([
        byte(0),
        byte(1),
        byte(2),
        byte(3),
        byte(4),
        byte(5),
        byte(6),
        byte(7),
    ])
}
