// Entries of the pool: the first with an id, and the author that one gives.
// That `i` is the number of an entry is a clause of each function: a number does not hold the pool that it counts in.
ghost use Rattle.std.specs.Prelude.{◌≡◌, ◌<◌};
ghost use Rattle.base.specs.Found.{Found};
ghost use Rattle.pool.specs.Layout.{count_of, entry_at};
ghost use Rattle.base.specs.Lent.{lent};
ghost use Rattle.source.specs.Entry.{author_of};
ghost use Rattle.definition.specs.Entries.{entry_has, entry_in};

use pool::Pool;
use pool::fields::tag;

// The id of entry `i`.
pub fn entry_id<'a>(pool: Pool<'a>, i: usize) -> &'a [u8]
    requires { i < count_of pool.bytes.now }
    ensures { result.now ≡ (entry_at pool.entry.bytes.now i).id }
{
    pool.entry(i).field(tag::ID).unwrap_or(&[])
}

// Whether entry `i` has the id `key`; an empty id is never one.
#[tactic(auto, using(base::proofs::Sames::same_pointwise), unfolding(crate::specs::Entries::entry_has, crate::specs::Defs::entry_defines))]
fn has_id(pool: Pool, i: usize, key: &[u8]) -> bool
    requires { i < count_of pool.bytes.now }
    ensures { result ≡ entry_has pool.entry.bytes.now key.now i }
{
    let own = entry_id(pool, i);
    !own.is_empty() && own == key
}

// The number of the first entry with the id `key`.
#[tactic(auto, unfolding(crate::specs::Entries::entry_in))]
pub fn entry_in(pool: Pool, key: &[u8]) -> Option<usize>
    ensures { Found (count_of pool.entry.bytes.now) (entry_in pool.entry.bytes.now key.now) result }
{
    let count = pool.count();
    let i = base::search::first_place(0, count, |i| has_id(pool, i, key));
    (i < count).then_some(i)
}

// The author that entry `i` gives: its first name's literal, else its family.
pub fn entry_author<'a>(pool: Pool<'a>, i: usize) -> Option<&'a [u8]>
    requires { i < count_of pool.bytes.now }
    ensures { lent result ≡ author_of (entry_at pool.entry.bytes.now i) }
{
    let name = pool.entry(i).names().next()?;
    name.literal.or(name.family)
}
