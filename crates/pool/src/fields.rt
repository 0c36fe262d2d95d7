// The fields of an entry, read one after the other: by an iterator,
// by a tag, and the year.
ghost use Rattle.std.specs.Prelude.{◌≡◌, true};
ghost use Rattle.pool.specs.Readers.{are_fields};

use crate::field::{Field, split_field};
use crate::numbers::signed_at;

// The tags of the fields: numbers and no enum, since any byte may stand there.
pub mod tag {
    pub const ID: u8 = 1;

    pub const NAME: u8 = 2;

    pub const FAMILY: u8 = 3;

    pub const GIVEN: u8 = 4;

    pub const LITERAL: u8 = 5;

    pub const YEAR: u8 = 6;

    pub const DATE: u8 = 7;

    pub const TITLE: u8 = 8;
}

// The fields of an entry, or those that are left of it.
#[derive(Clone, Copy)]
pub struct Fields<'a> {
    pub bytes: &'a [u8],
    pub ghost filled: { are_fields bytes.now ≡ true },
}

#[tactic(auto, using(crate::proofs::PartLaws::next_laws))]
impl<'a> Iterator for Fields<'a> {
    ghost use Rattle.std.specs.Iterator.{YieldsFirstBy, item_count};
    ghost use Rattle.pool.specs.Views.{field_lent, fields_left};

    type Item = Field<'a>;

    ghost next_gives = { YieldsFirstBy field_lent fields_left };

    ghost remaining = { item_count fields_left };

    // The next field, if one is left.
    fn next(&mut self) -> Option<Field<'a>> {
        let (field, rest) = split_field(self.bytes)?;
        self.bytes = rest;
        Some(field)
    }
}

impl<'a> Fields<'a> {
    ghost use Rattle.base.specs.Lent.{lent};
    ghost use Rattle.pool.specs.Entries.{field_with, year_in};
    ghost use Rattle.pool.specs.Readers.{read_number};
    ghost use Rattle.pool.specs.Views.{fields_left};

    // The bytes of the first field with the tag `tag`.
    pub fn field(self, tag: u8) -> Option<&'a [u8]>
        ensures { lent result ≡ field_with tag (fields_left self.entry) }
    {
        let mut fields = self;
        let field = fields.find(|field| field.tag == tag)?;
        Some(field.bytes)
    }

    // The year, the number of the field YEAR.
    #[tactic(auto, unfolding(crate::specs::Entries::year_in))]
    pub fn year(self) -> Option<i64>
        ensures { read_number result ≡ year_in (field_with 6 (fields_left self.entry)) }
    {
        Some(signed_at(self.field(tag::YEAR)?, 0))
    }
}
