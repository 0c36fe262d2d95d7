// A reader that keeps the text and a position: whether the position is escaped, and where the white space from there ends.
// Callers use the functions of the crate's root, which take the text and a place.
ghost use Rattle.std.specs.Prelude.{◌≡◌, ◌+◌, ◌≤◌, length};
ghost use Rattle.text.specs.Escape.{escaped_at, slashes};
ghost use Rattle.text.specs.Trim.{trim_start, trim_end};

use base::search::{after_last, first_place};
use white::is_white;

// "Escape and white space are read by a reader that keeps the text and a position." (That the position lies in the text is no ghost field, but a clause
// where it is needed: `trim_start` may begin past the text's end, and asks nothing of its callers there.)
#[derive(Drop)]
pub struct Reader<'a> {
    pub text: &'a [u8],
    pub at: usize,
}

impl<'a> Reader<'a> {
    // Where the run of backslashes just before the position begins.
    #[tactic(auto, using(crate::proofs::Laws::slashes_after))]
    fn slashes_start(&self) -> usize
        requires { self.now.at ≤ length self.now.text.now }
        ensures { result + slashes self.now.text.now self.now.at ≡ self.now.at }
    {
        after_last(0, self.at, |i| self.text[i] != b'\\')
    }

    // Whether the position is escaped: an odd run of backslashes stands just before it.
    #[tactic(auto, unfolding(crate::specs::Escape::escaped_at))]
    pub fn is_escaped(&self) -> bool
        requires { self.now.at ≤ length self.now.text.now }
        ensures { result ≡ escaped_at self.now.text.now self.now.at }
    {
        (self.at - self.slashes_start()) % 2 == 1
    }

    // Moves on to the first byte before `end` that is not white, or to `end`; stays where it is if that is past `end`.
    #[tactic(auto, unfolding(crate::specs::Trim::trim_start))]
    pub fn skip_white(&mut self, end: usize)
        requires { end ≤ length self.old.text.now }
        ensures { (self.new.text ≡ self.old.text) × (self.new.at ≡ trim_start self.old.text.now self.old.at end) }
    {
        self.at = first_place(self.at, end, |i| !is_white(self.text, i));
    }

    // Moves back to the end of the last byte after `start` that is not white, or to `start`.
    #[tactic(auto, unfolding(crate::specs::Trim::trim_end))]
    pub fn skip_white_back(&mut self, start: usize)
        requires { self.old.at ≤ length self.old.text.now }
        ensures { (self.new.text ≡ self.old.text) × (self.new.at ≡ trim_end self.old.text.now start self.old.at) }
    {
        self.at = after_last(start, self.at, |i| !is_white(self.text, i));
    }
}
