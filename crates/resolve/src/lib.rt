// Which byte closes a bracket, with an index and a note, whatever they hold, and the group that it then gives (`match_citation`).
// Where only an index can tell, the look asks for a build, and the close is read after it.
#![tactic(auto)]

ghost use Rattle.std.specs.Prelude.{◌≡◌, ◌<◌, length};
ghost use Rattle.resolve.specs.Groups.{barred, judge};
ghost use Rattle.resolve.specs.Looks.{matched, Inside};

use base::slices::byte_at;
use close::close_bracket;
use item::judge_items;

// The note of an index that is built. A note stays a number: C gives any byte, and a call that builds nothing returns that byte.
pub const BUILT: u8 = 1;

// What a bracket gives before any build: the place of its close where it is known, or that the index has to be built first. (No Option of an
// Option: a missing close and a close that is not known yet would both be None.)
#[derive(Clone, Copy)]
pub enum Look {
    Known(Option<usize>),
    Build,
}

// A text, its index, and the note that says whether the index is built.
#[derive(Clone, Copy)]
pub struct Indexed<'a> {
    pub text: &'a [u8],
    pub note: u8,
    pub index: &'a [u16],
}

// A group at a bracket, by its close and the count of its items.
#[derive(Clone, Copy)]
pub struct Group {
    pub close: usize,
    pub count: usize,
}

impl<'a> Indexed<'a> {
    ghost use Rattle.resolve.specs.Resolve.{stored_close, look_of, close_after};

    // The close that the index has for the bracket at `p`: a place not after it, outside the text or not at `]` counts as none.
    #[tactic(auto, unfolding(crate::specs::Resolve::stored_close, crate::specs::Resolve::as_close))]
    pub fn stored_close(self, p: usize) -> Option<usize>
        ensures { result ≡ stored_close self.entry.text.now p self.entry.index.now }
    {
        let c = usize::from(self.index.get(p).copied().unwrap_or(0));
        (p < c && c < self.text.len() && self.text[c] == b']').then_some(c)
    }

    // What the bracket at `p` gives before any build: what the index says, once it is built, and else what the look at 64 bytes says. Where
    // that found no close there is none if it saw the text's end.
    #[tactic(auto, unfolding(crate::specs::Resolve::look_of, crate::specs::Resolve::shortened, crate::specs::Resolve::short_look))]
    pub fn look_at(self, p: usize) -> Look
        requires { p < length self.text.now }
        ensures { result ≡ look_of self.entry.text.now p self.entry.note self.entry.index.now }
    {
        if self.note == BUILT {
            return Look::Known(self.stored_close(p));
        }
        let close = close_bracket(self.text, p, 64);
        if close.is_some() || self.text.len() - p <= 64 {
            Look::Known(close)
        } else {
            Look::Build
        }
    }

    // The close of the bracket at `p`, the index being built where the look asked for it.
    #[tactic(auto, unfolding(crate::specs::Resolve::close_after))]
    pub fn close_after(self, p: usize, look: Look) -> Option<usize>
        ensures { result ≡ close_after self.entry.text.now p self.entry.index.now look }
    {
        match look {
            Look::Known(close) => close,
            Look::Build => self.stored_close(p),
        }
    }
}

// Whether a `(`, `[` or `{` stands after the close at `c`.
#[tactic(auto, unfolding(crate::specs::Groups::barred))]
fn is_barred(text: &[u8], c: usize) -> bool
    requires { c < length text.now }
    ensures { result ≡ barred text.now c }
{
    matches!(byte_at(text, c + 1), b'(' | b'[' | b'{')
}

// The group of the bracket at `p` with this close.
#[tactic(auto, using(crate::proofs::Laws::match_laws))]
pub fn match_citation(text: &[u8], p: usize, close: Option<usize>) -> Option<Group>
    requires { (p < length text.now) × Inside text.now p close }
    ensures { result ≡ matched (judge text.now p close) }
{
    let close = close?;
    if is_barred(text, close) {
        return None;
    }
    let count = judge_items(text, p, close).ok()?;
    Some(Group { close, count })
}
