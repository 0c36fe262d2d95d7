// The check of the pool's layout,
// and the bounds of its entries.
ghost use Rattle.std.specs.Prelude.{◌≡◌, ◌&&◌, ◌+◌, ◌*◌, ◌≤◌, ◌<◌, IfSome, length};
ghost use Rattle.std.specs.Option.{unwrap_or};
ghost use Rattle.pool.specs.Fields.{follows, content_good, entry_good};
ghost use Rattle.pool.specs.Steps.{pair_good};
ghost use Rattle.pool.specs.Layout.{offset_of, end_of, entries_good, well_formed};

use crate::field::{Field, split_field};
use crate::fields::tag;
use crate::numbers::u16_at;

// Whether a field with the tag `next` may come after one with the tag `last`, or as the entry's first where there is none.
#[tactic(auto, using(std::proofs::lemmas::Grind::common_steps), unfolding(crate::specs::Fields::follows))]
fn may_follow(last: Option<u8>, next: u8) -> bool
    requires { IfSome last (λ t. 0 < t) }
    ensures { result ≡ follows (unwrap_or last 0) next }
{
    let Some(last) = last else {
        return next == tag::ID;
    };
    match next {
        tag::NAME => last <= tag::LITERAL,
        tag::FAMILY..=tag::LITERAL => tag::NAME <= last && last < next,
        tag::YEAR..=tag::TITLE => last < next,
        _ => false,
    }
}

// Whether the bytes may be those of a field with the tag `tag`.
#[tactic(auto, unfolding(crate::specs::Fields::content_good))]
fn has_good_content(tag: u8, bytes: &[u8]) -> bool
    ensures { result ≡ content_good tag bytes.now }
{
    match tag {
        tag::NAME => bytes.is_empty(),
        tag::YEAR => bytes.len() == 8,
        _ => utf8::is_utf8(bytes),
    }
}

// Whether a field may come after one with the tag `last`, or as the first.
fn is_good(last: Option<u8>, field: Field) -> bool
    requires { IfSome last (λ t. 0 < t) }
    ensures { result ≡ (follows (unwrap_or last 0) field.entry.tag && content_good field.entry.tag field.entry.bytes.now) }
{
    may_follow(last, field.tag) && has_good_content(field.tag, field.bytes)
}

// Whether the bytes are an entry. (No `for` over `Fields`, whose bytes are known to be fields: this is the check.)
#[tactic(auto, using(crate::proofs::LayoutLaws::entry_laws))]
fn is_entry(bytes: &[u8]) -> bool
    ensures { result ≡ entry_good bytes.now 0 (length bytes.now) }
{
    let mut last = None;
    let mut rest = bytes;
    while !rest.is_empty() {
        let Some((field, others)) = split_field(rest) else {
            return false;
        };
        if !is_good(last, field) {
            return false;
        }
        last = Some(field.tag);
        rest = others;
    }
    last.is_some()
}

// Where entry `i` begins and ends.
pub fn entry_bounds(pool: &[u8], i: usize) -> (usize, usize)
    requires { 6 + 4 * i ≤ length pool.now }
    ensures { (result.0 ≡ offset_of pool.now i) × (result.1 ≡ end_of pool.now i) }
{
    let start = u16_at(pool, 2 + 4 * i);
    (start, start + u16_at(pool, 4 + 4 * i))
}

// Whether entry `i` begins at `at`, and is one.
#[tactic(auto, using(std::proofs::lemmas::Grind::common_steps, crate::proofs::PartLaws::good_of_part), unfolding(crate::specs::Steps::pair_good))]
fn is_pair(pool: &[u8], i: usize, at: usize) -> bool
    requires { 6 + 4 * i ≤ length pool.now }
    ensures { result ≡ pair_good pool.now i at }
{
    let (start, end) = entry_bounds(pool, i);
    start == at && end <= pool.len() && is_entry(&pool[at..end])
}

// Whether `count` entries stand end to end, from after their pairs to the pool's end. (No `all`: each entry begins where the one before it
// ends, and the closure would have to change that place. `count` is read off the pool's front by the caller, which tests it first.)
#[tactic(auto, using(std::proofs::lemmas::Grind::common_steps), unfolding(crate::specs::Layout::entries_good, crate::specs::Steps::pair_good))]
fn are_entries(pool: &[u8], count: usize) -> bool
    requires { 2 + 4 * count ≤ length pool.now }
    ensures { result ≡ entries_good count pool.now 0 (2 + 4 * count) }
{
    let mut at = 2 + 4 * count;
    for i in 0..count {
        if !is_pair(pool, i, at) {
            return false;
        }
        (_, at) = entry_bounds(pool, i);
    }
    at == pool.len()
}

// Whether the pool has its layout; no bytes are no pool, and break none.
#[tactic(auto, using(std::proofs::lemmas::Grind::common_steps), unfolding(crate::specs::Layout::well_formed, crate::specs::Layout::laid_out))]
pub fn is_well_formed(pool: &[u8]) -> bool
    ensures { result ≡ well_formed pool.now }
{
    if pool.is_empty() {
        return true;
    }
    if pool.len() < 2 || 32768 < pool.len() {
        return false;
    }
    let count = u16_at(pool, 0);
    2 + 4 * count <= pool.len() && are_entries(pool, count)
}
