// Definition lines among the group records: whether one starts at a record, where the last of all starts, and the last of a key.
// `defines_in` and `lines_end` take the text and the records one by one: what they find is `lines`, without which no `Definitions` is made.
// That `g` is below `record_bound` is a clause, since `records::field` asks for it: with a `u32` each call would cast the counter of a search.
ghost use Rattle.std.specs.Prelude.{◌≡◌, ◌<◌};
ghost use Rattle.base.specs.Found.{Found};
ghost use Rattle.definition.specs.Lines.{defines_in, LinesBelow};
ghost use Rattle.records.specs.Bounds.{record_bound};

use crate::Definitions;
use records::{GROUP_COUNT, GROUP_FIRST, GROUP_PLACE, GROUP_WIDTH, field};

// Whether group record `g` starts a definition line.
#[tactic(auto, unfolding(crate::specs::Lines::defines_in))]
fn defines_in(text: &[u8], groups: &[u16], items: &[u16], g: usize) -> bool
    requires { g < record_bound }
    ensures { result ≡ defines_in text.now groups.now items.now g }
{
    let at = field::<GROUP_WIDTH>(groups, g, GROUP_PLACE);
    let close = records::close_of_record(groups, g);
    let first = field::<GROUP_WIDTH>(groups, g, GROUP_FIRST);
    field::<GROUP_WIDTH>(groups, g, GROUP_COUNT) == 1
        && definition_line::in_definition_place(text, at, close)
        && records::bare_in(items, first)
}

// One past the last of the first `n` group records that starts a definition line; 0 where none does.
pub fn lines_end(text: &[u8], groups: &[u16], items: &[u16], n: usize) -> usize
    requires { n < record_bound }
    ensures { LinesBelow text.now groups.now items.now n result }
{
    base::search::after_last(0, n, |g| defines_in(text, groups, items, g))
}

impl Definitions<'_> {
    ghost use Rattle.definition.specs.Lines.{defines_key_in, line_in};

    // Whether group record `g` starts a definition line of the key `key`. After most groups no colon stands, which costs less to see than that
    // their keys differ.
    #[tactic(auto, using(crate::proofs::LineLaws::key_laws), unfolding(crate::specs::Lines::defines_key_in))]
    fn defines_key_in(&self, g: usize, key: &[u8]) -> bool
        requires { g < record_bound }
        ensures { result ≡ defines_key_in self.now.text.now self.now.groups.now self.now.items.now key.now g }
    {
        if !definition_line::colon_after(self.text, records::close_of_record(self.groups, g)) {
            return false;
        }
        let first = field::<GROUP_WIDTH>(self.groups, g, GROUP_FIRST);
        records::key_in(self.text, self.items, first) == key
            && defines_in(self.text, self.groups, self.items, g)
    }

    // The last of the group records that starts a definition line of the key. The search begins at `lines`, from which on none starts
    // one of any key.
    #[tactic(auto, unfolding(crate::specs::Lines::line_in))]
    pub fn line_of(&self, key: &[u8]) -> Option<usize>
        ensures { Found self.now.n (line_in self.now.text.now self.now.groups.now self.now.items.now self.now.n key.now) result }
    {
        base::search::last_place(self.lines, |g| self.defines_key_in(g, key))
    }
}
