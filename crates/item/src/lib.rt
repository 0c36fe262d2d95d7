// One item of a group, its pieces between a bracket and its close, and the judgement on all of them. A stretch of the text is told by its places
// and is no slice: where an item ends, the key and the white space are read from the bytes after it, too.
#![tactic(auto)]

ghost use Rattle.std.specs.Prelude.{◌≡◌, ◌+◌, ◌-◌, ◌≤◌, ◌<◌, length, MatchOption, Some, None};
ghost use Rattle.base.specs.First.{first};
ghost use Rattle.item.specs.Facts.{ItemInOrder, ItemsInOrder, ItemLocal, PiecesLocal, PlusPassed, MarkServesNot};
ghost use Rattle.key.specs.Keys.{key_end};
ghost use Rattle.item.specs.Items.{wins, winner, suppresses, prefix_end, item_at, item_of, is_good};
ghost use Rattle.item.specs.Pieces.{semicolon_at, plus_at, items_start};
ghost use Rattle.item.specs.Judge.{judged_of};
ghost use Rattle.std.specs.Option.{ForSome};

use base::search::first_place;
use base::slices::{byte_at, find_byte};
use base::{Span, span_of};
use key::parse_key;
use locator::{Locator, parse_locator};
use text::{is_escaped_at, trim, trim_end, trim_start};

// An item. `parts` is what the locator is read as: nothing, plain or labelled.
#[derive(Clone, Copy)]
pub struct Item {
    pub prefix: Span,
    pub key: Span,
    pub locator: Span,
    pub parts: Locator,
    pub suppressed: bool,
}

// The first bad item between a bracket and its close, by its number from 0.
#[derive(Clone, Copy, PartialEq, Eq)]
pub struct BadItem {
    pub item: usize,
}

// Whether a `+` stands right after the bracket at `p`.
#[tactic(auto, unfolding(crate::specs::Pieces::plus_at))]
fn has_plus(text: &[u8], p: usize) -> bool
    requires { p < length text.now }
    ensures { result ≡ plus_at text.now p }
{
    byte_at(text, p + 1) == b'+'
}

// Where the items of the bracket at `p` begin: after the bracket, and after a `+` that follows it.
#[tactic(auto, unfolding(crate::specs::Pieces::items_start))]
pub fn items_start(text: &[u8], p: usize) -> usize
    requires { p < length text.now }
    ensures { result ≡ items_start text.now p }
{
    if has_plus(text, p) { p + 2 } else { p + 1 }
}

// Where the piece that begins at `from` ends: at the first `;`, escaped or nested too, or at the later of `from` and `end`.
#[tactic(auto, unfolding(crate::specs::Pieces::semicolon_at))]
pub fn piece_end(text: &[u8], from: usize, end: usize) -> usize
    requires { end ≤ length text.now }
    ensures { result ≡ first (semicolon_at text.now) (end - from) from }
{
    find_byte(text, b';', from, end)
}

// Whether an unescaped `@` stands at `i`, with a key that ends the trimmed item at `e` or meets `,`.
#[tactic(auto, unfolding(crate::specs::Items::wins, crate::specs::Items::at_sign, crate::specs::Items::key_serves))]
fn wins_at(text: &[u8], e: usize, i: usize) -> bool
    requires { (i < e) × (e ≤ length text.now) }
    ensures { result ≡ wins text.now e i }
{
    text[i] == b'@'
        && !is_escaped_at(text, i)
        && parse_key(text, i + 1).is_some_and(|m| m == e || m < e && text[m] == b',')
}

// The place of the first `@` with a key in the trimmed item from `a` to `e` (`wins_at`). (By two searches: the bytes before the first `@` are passed in
// a loop that holds nothing of `wins_at`. Not inlined, so that the second one holds nothing of its callers.)
#[inline(never)]
#[tactic(auto, using(crate::proofs::Laws::winner_at), unfolding(crate::specs::Items::winner))]
fn find_winner(text: &[u8], a: usize, e: usize) -> Option<usize>
    requires { e ≤ length text.now }
    ensures { MatchOption result (e ≤ winner text.now a e) (λ i. (i ≡ winner text.now a e) × (i < e)) }
{
    let at = find_byte(text, b'@', a, e);
    let i = first_place(at, e, |i| wins_at(text, e, i));
    (i < e).then_some(i)
}

// A good item whose parts are not read yet: its trimmed stretch, from `start` up to `end`, and the place of its `@`.
#[derive(Clone, Copy)]
struct GoodItem {
    start: usize,
    end: usize,
    at: usize,
}

// The good item in the stretch from `start` to `end`.
#[tactic(auto, using(crate::proofs::Laws::item_laws))]
fn find_item(text: &[u8], start: usize, end: usize) -> Option<GoodItem>
    requires { end ≤ length text.now }
    ensures { MatchOption result (item_of text.now start end ≡ None) (λ g. (g.at < g.end) × (g.end ≤ length text.now) × (item_of text.now start end ≡ Some (item_at text.now g.start g.end g.at (key_end text.now (g.at + 1))))) }
{
    let item = trim(text, start, end);
    if item.end <= item.start {
        return None;
    }
    let at = find_winner(text, item.start, item.end)?;
    Some(GoodItem {
        start: item.start,
        end: item.end,
        at,
    })
}

// Whether the stretch from `start` to `end` is a good item.
fn is_good_item(text: &[u8], start: usize, end: usize) -> bool
    requires { end ≤ length text.now }
    ensures { result ≡ is_good (item_of text.now start end) }
{
    find_item(text, start, end).is_some()
}

// Whether an unescaped `-` just before the `@` at `i` suppresses the author, in an item that begins at `a`.
#[tactic(auto, unfolding(crate::specs::Items::suppresses))]
fn is_suppressed(text: &[u8], a: usize, i: usize) -> bool
    requires { i ≤ length text.now }
    ensures { result ≡ suppresses text.now a i }
{
    a < i && text[i - 1] == b'-' && !is_escaped_at(text, i - 1)
}

// Where the prefix of an item that begins at `a` ends, its `@` being at `i`.
#[tactic(auto, using(crate::proofs::Laws::suppressed_past), unfolding(crate::specs::Items::prefix_end))]
fn prefix_end(text: &[u8], a: usize, i: usize) -> usize
    requires { i ≤ length text.now }
    ensures { result ≡ prefix_end text.now a i }
{
    if is_suppressed(text, a, i) {
        trim_end(text, a, i - 1)
    } else {
        trim_end(text, a, i)
    }
}

// The parts of the trimmed item from `a` to `e` whose `@` is at `i`.
#[tactic(auto, using(key::proofs::Laws::key_by_lem), unfolding(crate::specs::Items::item_at, crate::specs::Items::locator_start))]
fn item_at(text: &[u8], a: usize, e: usize, i: usize) -> Item
    requires { (i < e) × (e ≤ length text.now) }
    ensures { result ≡ item_at text.now a e i (key_end text.now (i + 1)) }
{
    let key = parse_key(text, i + 1).unwrap_or(i + 1);
    let locator = trim_start(text, key + 1, e);
    Item {
        prefix: span_of(a, prefix_end(text, a, i)),
        key: span_of(i + 1, key),
        locator: span_of(locator, e),
        parts: parse_locator(text, locator, e),
        suppressed: is_suppressed(text, a, i),
    }
}

// The item in the stretch from `start` to `end`.
pub fn parse_item(text: &[u8], start: usize, end: usize) -> Option<Item>
    requires { end ≤ length text.now }
    ensures { result ≡ item_of text.now start end }
{
    let good = find_item(text, start, end)?;
    Some(item_at(text, good.start, good.end, good.at))
}

// A piece of the text, the places from `from` up to `to`. (No `Range<usize>`: that is an iterator of its own, and no `Copy`.)
#[derive(Clone, Copy)]
pub struct Piece {
    pub from: usize,
    pub to: usize,
}

// The pieces of a stretch of the text that ends at `end`, or those that are left of it: the next one begins at `next`, and none is left where that
// is missing.
#[derive(Clone, Copy)]
pub struct GroupPieces<'a> {
    pub text: &'a [u8],
    pub next: Option<usize>,
    pub end: usize,
    pub ghost inside: { (end ≤ length text.now) × ForSome next (λ a. a ≤ end + 1) },
}

impl<'a> Iterator for GroupPieces<'a> {
    ghost use Rattle.std.specs.Iterator.{YieldsFirstBy, item_count};
    ghost use Rattle.item.specs.Walk.{stretch_of, pieces_left};

    type Item = Piece;

    ghost next_gives = { YieldsFirstBy stretch_of pieces_left };

    ghost remaining = { item_count pieces_left };

    // The piece that begins at `next`; the next one begins after its `;`.
    fn next(&mut self) -> Option<Piece> {
        let from = self.next?;
        let to = piece_end(self.text, from, self.end);
        self.next = if to < self.end { Some(to + 1) } else { None };
        Some(Piece { from, to })
    }
}

impl<'a> GroupPieces<'a> {
    ghost use Rattle.item.specs.Pieces.{pieces_of};
    ghost use Rattle.item.specs.Walk.{pieces_left};

    // The pieces between the bracket at `p` and the close at `c`.
    #[tactic(auto, using(crate::proofs::Pieces::starts_by), unfolding(crate::specs::Pieces::pieces_of))]
    pub fn between(text: &'a [u8], p: usize, c: usize) -> GroupPieces<'a>
        requires { (p < c) × (c < length text.now) }
        ensures { pieces_left result ≡ pieces_of text.now p c }
    {
        GroupPieces {
            text,
            next: Some(items_start(text, p)),
            end: c,
        }
    }
}

// How many items stand between the bracket at `p` and the close at `c`, where all are good; else the first bad one.
#[tactic(auto, using(crate::proofs::Walk::judging_done))]
pub fn judge_items(text: &[u8], p: usize, c: usize) -> Result<usize, BadItem>
    requires { (p < c) × (c < length text.now) }
    ensures { result ≡ judged_of text.now p c }
{
    // a counter and no `enumerate`: the count of all is an answer, too
    let mut count = 0;
    for piece in GroupPieces::between(text, p, c) {
        if !is_good_item(text, piece.from, piece.to) {
            return Err(BadItem { item: count });
        }
        count += 1;
    }
    Ok(count)
}

// The theorems of specs/Facts. The function does nothing; its contract states them.
pub fn theorems()
    ensures item_in_order { ItemInOrder }
    ensures items_in_order { ItemsInOrder }
    ensures item_local { ItemLocal }
    ensures pieces_local { PiecesLocal }
    ensures plus_passed { PlusPassed }
    ensures mark_serves_not { MarkServesNot }
{}
