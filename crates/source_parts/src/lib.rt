// The parts of a source's text, and how they are joined: a name, the year in parentheses, and what else the pool lends. A text is put
// together at the front of an area.
#![tactic(auto)]

ghost use Rattle.std.specs.Prelude.{◌≡◌, ◌≤◌, length, min};
ghost use Rattle.base.specs.Lists.{written};
ghost use Rattle.pool.specs.Views.{name_lent};
ghost use Rattle.source.specs.Years.{written_year};
ghost use Rattle.source_parts.specs.Joined.{beside};
ghost use Rattle.source_parts.specs.Names.{name_of};
ghost use Rattle.source_parts.specs.Parens.{in_parens};
ghost use Rattle.source_parts.specs.Parts.{part_text, Adds, Edits};

use pool::names::NameParts;
use source::Year;

// A part of a text: bytes, a name with its given name, or a year in parentheses.
#[derive(Clone, Copy)]
pub enum Part<'a> {
    Plain(&'a [u8]),
    Given { family: &'a [u8], given: &'a [u8] },
    InParens(Year<'a>),
}

impl<'a> Part<'a> {
    // A part that is one piece.
    pub fn plain(bytes: &'a [u8]) -> Part<'a>
        ensures { part_text result ≡ bytes.now }
    {
        Part::Plain(bytes)
    }

    // A name (`format_name`).
    #[tactic(auto, unfolding(crate::specs::Names::name_of, crate::specs::Names::name_by, crate::specs::Names::family_part, crate::specs::Names::given_part))]
    pub fn name(name: NameParts<'a>) -> Part<'a>
        ensures { part_text result ≡ name_of (name_lent name.entry) }
    {
        if let Some(literal) = name.literal {
            return Part::plain(literal);
        }
        let Some(family) = name.family else {
            return Part::plain(&[]);
        };
        let Some(given) = name.given else {
            return Part::plain(family);
        };
        Part::Given { family, given }
    }

    // A year in parentheses; no bytes where there is none.
    #[tactic(auto, unfolding(crate::specs::Parens::in_parens))]
    pub fn in_parens(year: Option<Year<'a>>) -> Part<'a>
        ensures { part_text result ≡ in_parens (written_year year.entry) }
    {
        let Some(year) = year else {
            return Part::plain(&[]);
        };
        Part::InParens(year)
    }

    // How many bytes the part is, up to the largest number.
    pub fn len(self) -> usize
        ensures { result ≡ min (length (part_text self.entry)) usize.MAX }
    {
        match self {
            Part::Plain(piece) => piece.len(),
            Part::Given { family, given } => (family.len() + 2).saturating_add(given.len()),
            Part::InParens(year) => 1 + year.len() + 1,
        }
    }

    // The part at the front of `out`.
    pub fn write(self, out: &mut [u8])
        requires { length (part_text self) ≤ length out.old }
        ensures { out.new ≡ written (part_text self.entry) out.old }
    {
        match self {
            Part::Plain(piece) => source::write_bytes(piece, out),
            Part::Given { family, given } => {
                let start = family.len();
                source::write_bytes(family, out);
                source::write_bytes(b", ", &mut out[start..]);
                source::write_bytes(given, &mut out[start + 2..]);
            }
            Part::InParens(year) => {
                let end = 1 + year.len();
                source::write_bytes(b"(", out);
                year.write(&mut out[1..]);
                source::write_bytes(b")", &mut out[end..]);
            }
        }
    }
}

// A text that is put together at the front of an area, and how many bytes it has, which are counted also where it has no room there. (No `Vec`:
// the area is lent, and the library has no heap.)
#[derive(Drop)]
pub struct Text<'a> {
    pub area: &'a mut [u8],
    pub len: usize,
}

impl Text<'_> {
    // Adds bytes.
    pub fn push(&mut self, bytes: &[u8])
        ensures { Adds bytes.now self.old self.new }
    {
        let start = self.len;
        self.len = start.saturating_add(bytes.len());
        if self.len <= self.area.len() {
            source::write_bytes(bytes, &mut self.area[start..]);
        }
    }

    // Adds a part.
    pub fn push_part(&mut self, part: Part)
        ensures { Adds (part_text part.entry) self.old self.new }
    {
        self.push_counted(part, part.len());
    }

    // Adds a part of `count` bytes. (Inlined, as `join` is.)
    #[inline(always)]
    fn push_counted(&mut self, part: Part, count: usize)
        requires { count ≡ min (length (part_text part)) usize.MAX }
        ensures { Adds (part_text part.entry) self.old self.new }
    {
        let start = self.len;
        self.len = start.saturating_add(count);
        if self.len <= self.area.len() {
            part.write(&mut self.area[start..]);
        }
    }

    // Adds a part with `separator` before it; an empty one falls out together with that. (Inlined, since a caller knows its separator and what kind
    // its part is.)
    #[inline(always)]
    pub fn join(&mut self, separator: &[u8], part: Part)
        ensures { Edits (λ text. beside separator.now text (part_text part.entry)) self.old self.new }
    {
        let count = part.len();
        if count == 0 {
            return;
        }
        if self.len != 0 {
            self.push(separator);
        }
        self.push_counted(part, count);
    }
}
