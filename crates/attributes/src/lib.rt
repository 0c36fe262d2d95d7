// The attributes of a definition line (`attr_value`): words `name=value` parted by white space.
// A word is told by its places, since whether a byte is white depends on the bytes before it; a name and a value are slices.
#![tactic(auto)]

ghost use Rattle.std.specs.Prelude.{◌≡◌, ◌<◌, length};
ghost use Rattle.white.specs.White.{is_white};
ghost use Rattle.base.specs.Lent.{lent};
ghost use Rattle.attributes.specs.Attributes.{word_start, word_end, end_without, stripped, bare, attr_value};

use base::search::{after_last, first_place};
use base::slices;

// Where the first word begins that begins at `from` or after it, or where the attributes end.
fn word_start(attributes: &[u8], from: usize) -> usize
    ensures { result ≡ word_start attributes.now from }
{
    text::trim_start(attributes, from, attributes.len())
}

// Whether a byte that is no graphic character is white. (Not inlined: the loop over the bytes of a word stays as short as its test for a graphic one.)
#[inline(never)]
fn is_white_here(attributes: &[u8], i: usize) -> bool
    requires { i < length attributes.now }
    ensures { result ≡ is_white attributes.now i }
{
    text::is_white_at(attributes, i)
}

// Where the word that goes on at `from` ends: at white space, or at the end. (An ASCII graphic character is no white space, and is told by itself:
// most bytes of a word are such, and `is_white_at` reads those before its place too.)
#[tactic(auto, using(crate::proofs::WordLaws::graphic_goes_on), unfolding(crate::specs::Attributes::word_end))]
fn word_end(attributes: &[u8], from: usize) -> usize
    ensures { result ≡ word_end attributes.now from }
{
    first_place(from, attributes.len(), |i| {
        !white::is_ascii_graphic(attributes[i]) && is_white_here(attributes, i)
    })
}

// The words of the attributes that are left: those that begin at `from` or after it.
#[derive(Clone, Copy)]
struct Words<'a> {
    attributes: &'a [u8],
    from: usize,
}

#[tactic(auto, using(crate::proofs::WordLaws::word_laws))]
impl<'a> Iterator for Words<'a> {
    ghost use Rattle.std.specs.Iterator.{YieldsFirstRef, item_count};
    ghost use Rattle.attributes.specs.Values.{words_left};

    type Item = &'a [u8];

    ghost next_gives = { YieldsFirstRef words_left };

    ghost remaining = { item_count words_left };

    // The next word, if one is left.
    fn next(&mut self) -> Option<&'a [u8]> {
        let start = word_start(self.attributes, self.from);
        if self.attributes.len() <= start {
            return None;
        }
        self.from = word_end(self.attributes, start);
        Some(&self.attributes[start..self.from])
    }
}

// Where the bytes from `a` on end without the bytes `b` at the end.
fn end_without(s: &[u8], b: u8, a: usize) -> usize
    ensures { result ≡ end_without b s.now a (length s.now) }
{
    after_last(a, s.len(), |i| s[i] != b)
}

// The bytes without the bytes `b` at both ends.
#[tactic(auto, using(crate::proofs::WordLaws::strip_laws))]
fn stripped<'a>(s: &'a [u8], b: u8) -> &'a [u8]
    ensures { result.now ≡ stripped b s.now }
{
    let start = slices::skip_byte(s, b, 0, s.len());
    let end = end_without(s, b, start);
    &s[start..end]
}

// The value without double quotes, then without single ones, at both ends.
#[tactic(auto, unfolding(crate::specs::Attributes::bare))]
fn bare<'a>(value: &'a [u8]) -> &'a [u8]
    ensures { result.now ≡ bare value.now }
{
    stripped(stripped(value, b'"'), b'\'')
}

// The value of the first word `key=value`. A word without `=` before it ends the search.
#[tactic(auto, using(crate::proofs::WordLaws::value_laws))]
pub fn attr_value<'a>(attributes: &'a [u8], key: &[u8]) -> Option<&'a [u8]>
    ensures { lent result ≡ attr_value attributes.now key.now }
{
    let words = Words {
        attributes,
        from: 0,
    };
    for word in words {
        let equals = slices::find_byte(word, b'=', 0, word.len());
        if word.len() <= equals {
            return None;
        }
        if &word[..equals] == key {
            return Some(bare(&word[equals + 1..]));
        }
    }
    None
}
