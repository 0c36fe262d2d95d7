// Where a group of the sweep stands: whether it is in a definition line,
// and the standing that the sweep gives it.
#![tactic(auto)]

ghost use Rattle.std.specs.Prelude.{◌≡◌};
ghost use Rattle.base.specs.Pick.{pick};
ghost use Rattle.item.specs.Pieces.{items_of};
ghost use Rattle.item.specs.Group.{group_of};
ghost use Rattle.definition_line.specs.Lines.{bare_item, only_key, defines, in_line};
ghost use Rattle.standing.specs.Standings.{standing_number};
ghost use Rattle.standing.specs.Stands.{GroupFrom};

use definition_line::{break_at, in_definition_place};
use item::{Item, items_start, parse_item};
use resolve::Group;

// Whether an item is a key alone: "no prefix, no locator, not suppressed".
#[tactic(auto, unfolding(definition_line::specs::Lines::bare_item))]
fn is_bare(item: Item) -> bool
    ensures { result ≡ bare_item item }
{
    item.prefix.len == 0 && item.locator.len == 0 && !item.suppressed
}

// The standing of a group, by the numbers of the group record.
#[derive(Clone, Copy, PartialEq, Eq)]
pub enum Standing {
    // in a definition line
    DefinitionLine = 0,
    // elsewhere, a key undefined; the sweep gives it to each such group, before it is known which keys are defined
    KeyUndefined = 1,
    // elsewhere, all keys defined
    Numbered = 2,
}

impl From<Standing> for u16 {
    ghost use Rattle.standing.specs.Standings.{standing_number};

    ghost from_gives = { λ standing number. number ≡ standing_number standing };

    // The number of a standing.
    fn from(standing: Standing) -> u16 {
        standing as u16
    }
}

// A group of a text: the bracket that opens it, and the group there.
#[derive(Clone, Copy)]
pub struct GroupAt<'a> {
    pub text: &'a [u8],
    pub at: usize,
    pub group: Group,
    pub ghost stands: { GroupFrom text.now at group.close group.count },
}

impl<'a> GroupAt<'a> {
    ghost use Rattle.item.specs.Pieces.{items_of};
    ghost use Rattle.item.specs.Group.{group_of};
    ghost use Rattle.definition_line.specs.Lines.{only_key, defines, in_line};

    // Whether the group is a key alone: "one item, no prefix, no locator, not suppressed".
    #[tactic(auto, using(crate::proofs::Lines::only_good, crate::proofs::Lines::only_bad, crate::proofs::Lines::only_more))]
    fn is_only_key(self) -> bool
        ensures { result ≡ only_key (items_of self.entry.text.now self.entry.at self.entry.group.close) }
    {
        if self.group.count != 1 {
            return false;
        }
        parse_item(self.text, items_start(self.text, self.at), self.group.close).is_some_and(
            is_bare,
        )
    }

    // Whether the group starts a definition line.
    #[tactic(auto, using(crate::proofs::Lines::no_place, crate::proofs::Lines::by_key))]
    fn is_definition(self) -> bool
        ensures { result ≡ defines self.entry.text.now (group_of self.entry.text.now self.entry.at self.entry.group.close) }
    {
        in_definition_place(self.text, self.at, self.group.close) && self.is_only_key()
    }

    // Whether the group stands in a definition line; the group before it ended at `from`, and `before` says whether that one does.
    #[tactic(auto, using(crate::proofs::Lines::line_starts, crate::proofs::Lines::line_goes_on, crate::proofs::Lines::line_none))]
    pub fn is_in_line(self, before: bool, from: usize) -> bool
        ensures { result ≡ in_line self.entry.text.now before from (group_of self.entry.text.now self.entry.at self.entry.group.close) }
    {
        self.is_definition() || before && self.at <= break_at(self.text, from, self.at)
    }
}

// The standing that a sweep gives a group, before it is known which keys are defined.
pub fn standing_of(inside: bool) -> Standing
    ensures { standing_number result ≡ pick inside 0 1 }
{
    if inside {
        Standing::DefinitionLine
    } else {
        Standing::KeyUndefined
    }
}
