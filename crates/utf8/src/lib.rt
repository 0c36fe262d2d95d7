// UTF-8: which texts are well-formed, and what refuses a text by itself: its length, or that it is not UTF-8.
// The library's check reads 64 bytes at a time.
#![tactic(auto)]

ghost use Rattle.std.specs.Prelude.{◌≡◌, ◌-◌, ◌*◌, ◌<◌, ◌≤◌, ◌++◌, length, take, replicate, IsTrue};
ghost use Rattle.std.specs.Str.{IsAscii, IsUtf8};
ghost use Rattle.base.specs.Checks.{refusal_number};
ghost use Rattle.utf8.specs.Facts.{EncodedIsUtf8, Utf8IsEncoded, DecodedIsBack};
ghost use Rattle.utf8.specs.Refusal.{text_refusal};
ghost use Rattle.utf8.specs.Utf8.{utf8};

use base::refusal::Refusal;
use simdutf8::Checker;
use std::simd::prelude::*;

// The bytes of a block, and the most blocks that are checked at once.
const BLOCK: usize = 64;

const MOST: usize = 16;

// Whether a block is ASCII.
#[inline(always)]
fn is_ascii(block: u8x64) -> bool
    ensures { IsTrue result → IsAscii block }
{
    block.simd_ge(u8x64::splat(0x80)).to_bitmask() == 0
}

// How many of the last bytes begin a character that goes on behind them. (Only the speed rests on this number: `is_utf8` reads again, byte by byte,
// what `are_utf8` does not find well-formed.)
fn open_bytes(bytes: &[u8]) -> usize
    ensures { result ≤ 3 }
{
    match bytes {
        [.., 0xC0..=0xFF] => 1,
        [.., 0xE0..=0xFF, _] => 2,
        [.., 0xF0..=0xFF, _, _] => 3,
        _ => 0,
    }
}

// A block of 64 bytes, zeros in the place of the last `cut`. (An area with a constant length: where the length is not constant, a copy needs `memcpy`.)
fn closed_block(bytes: &[u8], cut: usize) -> u8x64
    requires { (length bytes.now ≡ 64) × (cut ≤ 3) }
    ensures { result ≡ take (64 - cut) bytes.now ++ replicate cut 0 }
{
    let mut block = [0; BLOCK];
    block.copy_from_slice(bytes);
    block[BLOCK - cut..].fill(0);
    u8x64::from_array(block)
}

// Whether the bytes of the first `blocks` blocks are well-formed, the last `cut` bytes left off.
fn are_utf8(bytes: &[u8], blocks: usize, cut: usize) -> bool
    requires { (0 < blocks) × (64 * blocks ≤ length bytes.now) × (cut ≤ 3) }
    ensures { IsTrue result → IsUtf8 (take (64 * blocks - cut) bytes.now) }
{
    let last = BLOCK * (blocks - 1);
    let mut checker = Checker::new();
    for i in 0..blocks - 1 {
        checker = checker.step(u8x64::from_slice(&bytes[BLOCK * i..]));
    }
    checker
        .step(closed_block(&bytes[last..last + BLOCK], cut))
        .finish()
}

// How many bytes at the front are known to be well-formed: blocks of ASCII, and runs of blocks that are longer the further the place is, so that a text
// is not read far beyond its first fault.
fn known_front(text: &[u8]) -> usize
    ensures { (result ≤ length text.now) × IsUtf8 (take result text.now) }
{
    let mut at = 0;
    while text.len() - at >= BLOCK {
        let rest = &text[at..];
        if is_ascii(u8x64::from_slice(rest)) {
            at += BLOCK;
            continue;
        }
        let blocks = (rest.len() / BLOCK).min((1 + at / BLOCK).min(MOST));
        let cut = open_bytes(&rest[..BLOCK * blocks]);
        if !are_utf8(rest, blocks, cut) {
            break;
        }
        at += BLOCK * blocks - cut;
    }
    at
}

// Whether the bytes are well-formed UTF-8, byte by byte.
#[tactic(auto, using(crate::proofs::Standard::standard_laws))]
fn is_rest_utf8(bytes: &[u8]) -> bool
    ensures { result ≡ utf8 bytes.now }
{
    std::str::from_utf8(bytes).is_ok()
}

// Whether the text is well-formed UTF-8. (Its blocks by `simdutf8`: `std::str::from_utf8` takes several times as long where the characters are of two
// or three bytes. Not the whole text by `simdutf8::basic`: that reads on behind a fault, and needs `memcpy`.)
#[tactic(auto, using(crate::proofs::Standard::rest_tells))]
pub fn is_utf8(text: &[u8]) -> bool
    ensures { result ≡ utf8 text.now }
{
    let front = known_front(text);
    is_rest_utf8(&text[front..])
}

// Refuses a text by itself: above 65,535 bytes, or not UTF-8.
#[tactic(auto, unfolding(crate::specs::Refusal::text_refusal, crate::specs::Refusal::after_text))]
pub fn check_text(text: &[u8]) -> Result<(), Refusal>
    ensures { refusal_number result ≡ text_refusal text.now }
{
    if 65535 < text.len() {
        return Err(Refusal::TextTooLong);
    }
    if !is_utf8(text) {
        return Err(Refusal::TextNotUtf8);
    }
    Ok(())
}

// The theorems of specs/Facts. The function does nothing; its contract states them.
pub fn theorems()
    ensures encoded_is_utf8 { EncodedIsUtf8 }
    ensures utf8_is_encoded { Utf8IsEncoded }
    ensures decoded_is_back { DecodedIsBack }
{}
