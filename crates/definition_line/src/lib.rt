// Definition lines: where they begin, and their attributes.
// The attributes are a slice of the text, the part between the braces.
#![tactic(auto)]

ghost use Rattle.std.specs.Prelude.{◌≡◌, ◌&&◌, ◌≤◌, ◌<◌, length};
ghost use Rattle.definition_line.specs.Lines.{break_at, starts_line, colon_after, after_spaces, attributes_of};
ghost use Rattle.definition_line.specs.Search.{brace_or_break};

use base::search::first_place;
use base::slices;

// The first LF from `a` up to `e`, or `e`.
#[tactic(auto, unfolding(crate::specs::Lines::break_at))]
pub fn break_at(text: &[u8], a: usize, e: usize) -> usize
    requires { e ≤ length text.now }
    ensures { result ≡ break_at text.now a e }
{
    slices::find_byte(text, b'\n', a, e)
}

// The first `}` or LF from `a` up to `e`, or `e`.
#[tactic(auto, unfolding(crate::specs::Search::brace_or_break))]
fn brace_or_break(text: &[u8], a: usize, e: usize) -> usize
    requires { e ≤ length text.now }
    ensures { result ≡ brace_or_break text.now a e }
{
    first_place(a, e, |i| text[i] == b'}' || text[i] == b'\n')
}

// Whether a line starts at the place `at`.
#[tactic(auto, unfolding(crate::specs::Lines::starts_line))]
pub fn starts_line(text: &[u8], at: usize) -> bool
    ensures { result ≡ starts_line text.now at }
{
    at == 0 || slices::byte_at(text, at - 1) == b'\n'
}

// Whether `:` and a space follow the close of a group.
#[tactic(auto, unfolding(crate::specs::Lines::colon_after))]
pub fn colon_after(text: &[u8], close: usize) -> bool
    ensures { result ≡ colon_after text.now close }
{
    matches!(text.get(close..), Some([_, b':', b' ', ..]))
}

// Whether a group from `at` to `close` stands where one that starts a definition line does: at the start of a line, with `:` and a space
// after it.
pub fn in_definition_place(text: &[u8], at: usize, close: usize) -> bool
    ensures { result ≡ (starts_line text.now at && colon_after text.now close) }
{
    starts_line(text, at) && colon_after(text, close)
}

// The first byte after the `:` that is no space, or the text's end.
#[tactic(auto, unfolding(crate::specs::Lines::after_spaces))]
fn after_spaces(text: &[u8], close: usize) -> usize
    requires { close < length text.now }
    ensures { result ≡ after_spaces text.now close }
{
    slices::skip_byte(text, b' ', close + 2, text.len())
}

// The attributes of a definition line, whose first group closes at `close`, the plain run after it ending at `end` at the latest.
#[tactic(auto, using(crate::proofs::Laws::attributes_laws))]
fn attributes_before<'a>(text: &'a [u8], close: usize, end: usize) -> &'a [u8]
    requires { (close < length text.now) × (end ≤ length text.now) }
    ensures { result.now ≡ attributes_of text.now close end }
{
    let start = after_spaces(text, close);
    if text.get(start) != Some(&b'{') {
        return &[];
    }
    let brace = brace_or_break(text, start, end);
    if end <= brace || text.get(brace) != Some(&b'}') {
        return &[];
    }
    &text[start + 1..brace]
}

// The attributes of a definition line, whose first group closes at `close`, the group after that one beginning at `next`; the empty slice
// without any.
#[tactic(auto, using(crate::proofs::Clips::clip_laws))]
pub fn attributes<'a>(text: &'a [u8], close: usize, next: usize) -> &'a [u8]
    ensures { result.now ≡ attributes_of text.now close next }
{
    if text.len() <= close {
        return &[];
    }
    attributes_before(text, close, next.min(text.len()))
}
