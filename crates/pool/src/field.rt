// A field of an entry: where it ends,
// and what is read of it off the front of some bytes.
ghost use Rattle.std.specs.Prelude.{◌≡◌, false, MatchOption, ◌+◌, ◌≤◌, length};
ghost use Rattle.pool.specs.Fields.{field_end};
ghost use Rattle.pool.specs.Steps.{has_field, Split};
ghost use Rattle.pool.specs.Views.{field_lent};

use crate::numbers::u16_at;

// A field: its tag, and its bytes.
#[derive(Clone, Copy)]
pub struct Field<'a> {
    pub tag: u8,
    pub bytes: &'a [u8],
}

// Where the field at `at` ends.
#[tactic(auto, unfolding(crate::specs::Fields::field_end))]
pub fn field_end(bytes: &[u8], at: usize) -> usize
    requires { at + 3 ≤ length bytes.now }
    ensures { result ≡ field_end bytes.now at }
{
    at + 3 + u16_at(bytes, at + 1)
}

// The field at the front of some bytes, and the bytes after it. (By `field_end`: a pattern of the first three bytes would say a second time how
// a length is read.)
#[tactic(auto, using(crate::proofs::PartLaws::split_laws))]
pub fn split_field(bytes: &[u8]) -> Option<(Field, &[u8])>
    ensures { MatchOption result (has_field bytes.now ≡ false) (λ p. Split bytes.now (field_lent p.0) p.1.now) }
{
    if bytes.len() < 3 {
        return None;
    }
    let end = field_end(bytes, 0);
    let rest = bytes.get(end..)?;
    let field = Field {
        tag: bytes[0],
        bytes: &bytes[3..end],
    };
    Some((field, rest))
}
