// The bytes that sources are ordered by, and sources by the numbers of their definitions. `m` is below `record_bound` by a clause of each function
// here, and by no type: those that are public take the number alone, and no struct that holds it. The check proves that each `as` fits; `try_from` would answer
// a refusal that cannot come.
ghost use Rattle.std.specs.Prelude.{◌≡◌, ◌<◌, ◌≤◌};
ghost use Rattle.order.specs.References.{first_with, number_of_key};
ghost use Rattle.order.specs.ByDefinitions.{rank_of, number_of, source_of};
ghost use Rattle.records.specs.Bounds.{record_bound};

use base::search::first_place;
use definition::Definitions;
use records::{ITEM_NUMBER, ITEM_WIDTH, field, key_in};

// The bytes that the source of definition number `i` is ordered by: those of its author, or its key where no author is given. (A `match`:
// `unwrap_or_else` was tried, and the proof did not find what its closure gives.)
#[tactic(auto, using(crate::proofs::RankLaws::rank_laws))]
pub fn rank_by<'a>(definitions: &Definitions<'a>, i: usize) -> &'a [u8]
    ensures { result.now ≡ rank_of definitions.now i }
{
    let d = definitions.at(i);
    match definitions.given_by(d).author {
        Some(author) => author,
        None => definitions.key_by(d),
    }
}

// The first of the `m` item records with the number `k`; `m` where there is none. No `Option`: the record at this place is read in either case.
#[tactic(auto, unfolding(crate::specs::References::first_with, crate::specs::References::has_number))]
fn first_with(items: &[u16], m: usize, k: usize) -> usize
    requires { m < record_bound }
    ensures { result ≡ first_with items.now m k }
{
    first_place(0, m, |j| field::<ITEM_WIDTH>(items, j, ITEM_NUMBER) == k)
}

// The number of the definition of source number `k`.
#[tactic(auto, using(crate::proofs::RankLaws::of_laws))]
pub fn definition_of(definitions: &Definitions, m: usize, k: usize) -> u16
    requires { (definitions.now.n ≤ 32768) × (m < record_bound) }
    ensures { result ≡ number_of definitions.now m k }
{
    let key = key_in(
        definitions.text,
        definitions.items,
        first_with(definitions.items, m, k),
    );
    definitions.number_of(definitions.find(key))
}

// The number of the first of the `m` item records that is numbered and has the key `key`; that of record `m` where there is none, as in
// `first_with`.
#[tactic(auto, using(crate::proofs::RankLaws::use_laws), unfolding(crate::specs::References::number_of_key))]
fn number_of_key(text: &[u8], items: &[u16], m: usize, key: &[u8]) -> usize
    requires { m < record_bound }
    ensures value { result ≡ number_of_key text.now items.now m key.now }
    ensures small { result < 65536 }
{
    let j = first_place(0, m, |j| uses::is_use(text, items, j, key));
    field::<ITEM_WIDTH>(items, j, ITEM_NUMBER)
}

// The number of the source that definition number `i` defines.
#[tactic(auto, unfolding(crate::specs::Ordered::source_by))]
pub fn source_by(definitions: &Definitions, m: usize, i: usize) -> u16
    requires { m < record_bound }
    ensures { result ≡ source_of definitions.now m i }
{
    let key = definitions.key_by(definitions.at(i));
    number_of_key(definitions.text, definitions.items, m, key) as u16
}
