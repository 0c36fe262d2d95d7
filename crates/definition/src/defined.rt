// The definition of a key, its number, and what it gives: its key, its author and its year. That a definition is one of these groups or of the
// pool's entries (`DefinedIn`) is a clause of each method: a definition is a number, and does not hold the records that it counts in.
ghost use Rattle.std.specs.Prelude.{◌≡◌, ◌<◌, ◌≤◌};
ghost use Rattle.attributes.specs.Attributes.{attr_value, author_word, year_word};
ghost use Rattle.pool.specs.Layout.{count_of, entry_at};
ghost use Rattle.source.specs.Entry.{author_of, year_of};
ghost use Rattle.definition.specs.Parts.{Gives};

use crate::Definitions;
use crate::entries::{entry_author, entry_id, entry_in};
use attributes::attr_value;
use pool::Pool;
use records::{GROUP_FIRST, GROUP_WIDTH, field};
use source::Year;

// What defines a key: the line that a group starts, by the group's number, or an entry of the pool, by its number.
#[derive(Clone, Copy)]
pub enum Definition {
    Line(usize),
    Entry(usize),
}

// What a definition gives. "A definition's author is a part of the text or of the pool, not a copy." A year is such a part too, or a
// number of the pool.
#[derive(Clone, Copy, Default)]
pub struct AuthorYear<'a> {
    pub author: Option<&'a [u8]>,
    pub year: Option<Year<'a>>,
}

// What the attributes of a definition line give.
fn attributes_given<'a>(attributes: &'a [u8]) -> AuthorYear<'a>
    ensures { Gives result (attr_value attributes.now author_word) (attr_value attributes.now year_word) }
{
    AuthorYear {
        author: attr_value(attributes, b"author"),
        year: attr_value(attributes, b"year").map(Year::Text),
    }
}

// What an entry of the pool gives.
fn entry_given<'a>(pool: Pool<'a>, number: usize) -> AuthorYear<'a>
    requires { number < count_of pool.bytes.now }
    ensures { Gives result (author_of (entry_at pool.entry.bytes.now number)) (year_of (entry_at pool.entry.bytes.now number)) }
{
    AuthorYear {
        author: entry_author(pool, number),
        year: source::csl_year(pool.entry(number)),
    }
}

impl<'a> Definitions<'a> {
    ghost use Rattle.definition.specs.Defs.{def_author, def_year};
    ghost use Rattle.definition.specs.Lines.{line_def_in};
    ghost use Rattle.definition.specs.Definitions.{definition_in};
    ghost use Rattle.definition.specs.Defined.{defined_as, found_in, definition_number, definition_at, key_by, DefinedIn};

    // What defines the key.
    #[tactic(auto, using(crate::proofs::DefinedLaws::find_laws), unfolding(crate::specs::Defined::found_in))]
    pub fn find(&self, key: &[u8]) -> Option<Definition>
        ensures result_value { defined_as self.now.text.now self.now.groups.now self.now.n self.now.pool.bytes.now result
            ≡ definition_in self.now.text.now self.now.groups.now self.now.items.now self.now.n self.now.pool.bytes.now key.now }
        ensures within { DefinedIn self.now.pool.bytes.now self.now.n result }
        ensures found { result ≡ found_in self.now.text.now self.now.groups.now self.now.items.now self.now.n self.now.pool.bytes.now key.now }
    {
        if let Some(group) = self.line_of(key) {
            return Some(Definition::Line(group));
        }
        entry_in(self.pool, key).map(Definition::Entry)
    }

    // What the definition line of group record `g` gives.
    #[tactic(auto, unfolding(crate::specs::Lines::line_def_in, crate::specs::Defs::line_def))]
    fn line_given(&self, g: usize) -> AuthorYear<'a>
        requires { g < self.now.n }
        ensures { Gives result (line_def_in self.now.text.now self.now.groups.now self.now.n g).author
            (line_def_in self.now.text.now self.now.groups.now self.now.n g).year }
    {
        let close = records::close_of_record(self.groups, g);
        let next = records::next_in(self.text, self.groups, self.n, g);
        attributes_given(definition_line::attributes(self.text, close, next))
    }

    // The author and the year that a definition gives; none without one. (One `match` on the option was tried, as in `key_by`: the borrow
    // checker does not cover it where the arms give an `AuthorYear`.)
    #[tactic(auto, unfolding(crate::specs::Defined::defined_as, crate::specs::Defs::entry_def))]
    pub fn given_by(&self, d: Option<Definition>) -> AuthorYear<'a>
        requires { DefinedIn self.now.pool.bytes.now self.now.n d }
        ensures { Gives result (def_author (defined_as self.now.text.now self.now.groups.now self.now.n self.now.pool.bytes.now d))
            (def_year (defined_as self.now.text.now self.now.groups.now self.now.n self.now.pool.bytes.now d)) }
    {
        let Some(definition) = d else {
            return AuthorYear::default();
        };
        match definition {
            Definition::Line(group) => self.line_given(group),
            Definition::Entry(number) => entry_given(self.pool, number),
        }
    }

    // The key that a definition defines.
    #[tactic(auto, unfolding(crate::specs::Defined::key_by))]
    pub fn key_by(&self, d: Option<Definition>) -> &'a [u8]
        requires { DefinedIn self.now.pool.bytes.now self.now.n d }
        ensures { result.now ≡ key_by self.now.text.now self.now.pool.bytes.now self.now.groups.now self.now.items.now d }
    {
        match d {
            Some(Definition::Line(group)) => {
                let first = field::<GROUP_WIDTH>(self.groups, group, GROUP_FIRST);
                records::key_in(self.text, self.items, first)
            }
            Some(Definition::Entry(number)) => entry_id(self.pool, number),
            None => &[],
        }
    }

    // The number of a definition: a group's own, an entry's after those of the groups. `None` has a number too, the one after the last: the
    // lent `references` hold these numbers while they are sorted. The check proves that each fits `u16`; `try_from` would answer a refusal
    // that cannot come.
    #[tactic(auto, using(crate::proofs::DefinedLaws::count_short), unfolding(crate::specs::Defined::definition_number))]
    pub fn number_of(&self, d: Option<Definition>) -> u16
        requires { (self.now.n ≤ 32768) × DefinedIn self.now.pool.bytes.now self.now.n d }
        ensures { result ≡ definition_number self.now.pool.bytes.now self.now.n d }
    {
        match d {
            Some(Definition::Line(group)) => group as u16,
            Some(Definition::Entry(number)) => (self.n + number) as u16,
            None => (self.n + self.pool.count()) as u16,
        }
    }

    // The definition that has the number `i`.
    #[tactic(auto, unfolding(crate::specs::Defined::definition_at))]
    pub fn at(&self, i: usize) -> Option<Definition>
        ensures value { result ≡ definition_at self.now.pool.bytes.now self.now.n i }
        ensures within { DefinedIn self.now.pool.bytes.now self.now.n result }
    {
        if i < self.n {
            return Some(Definition::Line(i));
        }
        let number = i - self.n;
        (number < self.pool.count()).then_some(Definition::Entry(number))
    }
}
