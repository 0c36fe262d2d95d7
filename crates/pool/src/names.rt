// The names of an entry, read one after the other,
// and the parts of each.
ghost use Rattle.std.specs.Prelude.{◌≡◌, ◌≤◌};
ghost use Rattle.base.specs.Lent.{lent};
ghost use Rattle.pool.specs.Entries.{in_name, name_after, names_in};
ghost use Rattle.pool.specs.Views.{fields_left, name_lent, names_left};

use crate::fields::{Fields, tag};

// A name: its parts, those that are there.
#[derive(Clone, Copy)]
pub struct NameParts<'a> {
    pub family: Option<&'a [u8]>,
    pub given: Option<&'a [u8]>,
    pub literal: Option<&'a [u8]>,
}

// The names among the fields that are left.
#[derive(Clone, Copy)]
pub struct Names<'a> {
    pub fields: Fields<'a>,
}

impl<'a> Iterator for Names<'a> {
    ghost use Rattle.std.specs.Iterator.{YieldsFirstBy, item_count};

    type Item = NameParts<'a>;

    ghost next_gives = { YieldsFirstBy name_lent names_left };

    ghost remaining = { item_count names_left };

    // The next name, if one is left: that of the fields after the next one with the tag NAME.
    fn next(&mut self) -> Option<NameParts<'a>> {
        self.fields.find(|field| field.tag == tag::NAME)?;
        Some(name_after(self.fields))
    }
}

impl<'a> Fields<'a> {
    // The names among these fields.
    pub fn names(self) -> Names<'a>
        ensures { names_left result ≡ names_in (fields_left self.entry) }
    {
        Names { fields: self }
    }
}

// The field with the tag among the fields 3, 4 and 5 that stand first, those of a name.
fn name_field<'a>(fields: Fields<'a>, tag: u8) -> Option<&'a [u8]>
    requires { (3 ≤ tag) × (tag ≤ 5) }
    ensures { lent result ≡ in_name tag (fields_left fields.entry) }
{
    let mut parts = fields.take_while(|field| matches!(field.tag, tag::FAMILY..=tag::LITERAL));
    let field = parts.find(|field| field.tag == tag)?;
    Some(field.bytes)
}

// The name whose field 2 stands before these fields.
#[tactic(auto, unfolding(crate::specs::Entries::name_after))]
pub fn name_after<'a>(fields: Fields<'a>) -> NameParts<'a>
    ensures { name_lent result ≡ name_after (fields_left fields.entry) }
{
    NameParts {
        family: name_field(fields, tag::FAMILY),
        given: name_field(fields, tag::GIVEN),
        literal: name_field(fields, tag::LITERAL),
    }
}
