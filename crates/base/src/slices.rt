// What is read of a slice of bytes: the byte at a place, the first place with a byte or without it,
// and a part.
ghost use Rattle.std.specs.Prelude.{◌≡◌, ◌+◌, ◌≤◌, length};
ghost use Rattle.base.specs.First.{first_of, first_other};
ghost use Rattle.base.specs.Lists.{byte_at, part};

use crate::search::first_place;

// The byte at the place `at`; 0 past the end. (A function for its contract: contracts and laws speak of the definition `byte_at`.)
pub fn byte_at(s: &[u8], at: usize) -> u8
    ensures { result ≡ byte_at s.now at }
{
    s.get(at).copied().unwrap_or(0)
}

// The first place from `a` up to `e` that holds the byte `b`, or the later of `a` and `e`. (Beside `skip_byte`, which has `!=`: each has the definition
// that its callers' clauses name.)
pub fn find_byte(s: &[u8], b: u8, a: usize, e: usize) -> usize
    requires { e ≤ length s.now }
    ensures { result ≡ first_of b s.now a e }
{
    first_place(a, e, |i| s[i] == b)
}

// The first place from `a` up to `e` that holds another byte than `b`, or the later of `a` and `e`.
pub fn skip_byte(s: &[u8], b: u8, a: usize, e: usize) -> usize
    requires { e ≤ length s.now }
    ensures { result ≡ first_other b s.now a e }
{
    first_place(a, e, |i| s[i] != b)
}

// The `len` bytes from `at` on, or none where that is no part of `s`. (By two tests: `get` and `and_then` in their place were tried, and the proof did
// not close.)
#[tactic(auto, using(crate::proofs::Parts::part_laws))]
pub fn part_of<'a>(s: &'a [u8], at: usize, len: usize) -> &'a [u8]
    ensures { result.now ≡ part s.now at (at + len) }
{
    if at <= s.len() && len <= s.len() - at {
        &s[at..at + len]
    } else {
        &[]
    }
}
