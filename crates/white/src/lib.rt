// White space: the 25 White_Space characters of Unicode, as UTF-8.
// A byte is white where it is the first, the second or the third byte of one.
#![tactic(auto)]

ghost use Rattle.std.specs.Prelude.{◌≡◌, ◌<◌, length};
ghost use Rattle.white.specs.Facts.{WhiteSpaces25, WhiteHasWidth, WidthIsWhite, BytesAreWhite, WhiteIsByte};
ghost use Rattle.white.specs.White.{space_width, is_white};
ghost use Rattle.white.specs.Bytes.{is_ascii_graphic};

use base::slices::byte_at;

// Whether the byte is an ASCII graphic character, `!` to `~`. Such a byte is no white space, whatever stands around it. (The library's method with a
// contract of this crate: the library's speaks of its own definition, and the laws on white space of that in specs/Bytes.)
pub fn is_ascii_graphic(b: u8) -> bool
    ensures { result ≡ is_ascii_graphic b }
{
    b.is_ascii_graphic()
}

// How many bytes the White_Space character has that begins at `at`; 0 where none does. (A number and no Option: `is_white_byte` compares the widths,
// and a 0 is less than each.)
#[tactic(auto, unfolding(crate::specs::White::space_width))]
fn space_width(text: &[u8], at: usize) -> usize
    ensures { result ≡ space_width text.now at }
{
    match byte_at(text, at) {
        // U+0009 to U+000D, U+0020
        0x09..=0x0D | 0x20 => 1,
        // U+0085, U+00A0
        0xC2 => match byte_at(text, at + 1) {
            0x85 | 0xA0 => 2,
            _ => 0,
        },
        a @ 0xE1..=0xE3 => match (a, byte_at(text, at + 1), byte_at(text, at + 2)) {
            // U+1680
            (0xE1, 0x9A, 0x80) => 3,
            // U+2000 to U+200A, U+2028, U+2029, U+202F
            (0xE2, 0x80, 0x80..=0x8A | 0xA8 | 0xA9 | 0xAF) => 3,
            // U+205F
            (0xE2, 0x81, 0x9F) => 3,
            // U+3000
            (0xE3, 0x80, 0x80) => 3,
            _ => 0,
        },
        _ => 0,
    }
}

// Whether the byte at `at` is part of a White_Space character. A byte from 80 to BF can only be a later byte of one, any other only its first, so that
// no byte costs more questions than it needs.
#[tactic(auto, using(crate::proofs::Whites::first_low, crate::proofs::Whites::first_high, crate::proofs::Whites::later))]
pub fn is_white_byte(text: &[u8], at: usize) -> bool
    requires { at < length text.now }
    ensures { result ≡ is_white text.now at }
{
    match text[at] {
        0x80..=0xBF => 1 < space_width(text, at.saturating_sub(1))
            || 2 < space_width(text, at.saturating_sub(2)),
        _ => 0 < space_width(text, at),
    }
}

// Whether the byte at `at` is part of a White_Space character. An ASCII byte is decided by itself, so that the code is short enough for the compiler to
// put it into a caller's loop.
#[tactic(auto, using(crate::proofs::Whites::white_ascii))]
pub fn is_white(text: &[u8], at: usize) -> bool
    requires { at < length text.now }
    ensures { result ≡ is_white text.now at }
{
    match text[at] {
        0x09..=0x0D | 0x20 => true,
        0..=0x7F => false,
        _ => is_white_byte(text, at),
    }
}

// The theorems of specs/Facts. The function does nothing; its contract states them.
pub fn theorems()
    ensures white_spaces_25 { WhiteSpaces25 }
    ensures white_has_width { WhiteHasWidth }
    ensures width_is_white { WidthIsWhite }
    ensures bytes_are_white { BytesAreWhite }
    ensures white_is_byte { WhiteIsByte }
{}
