// The number and the use of an item record, by the last one before it with the same key; the last record with the same label;
// and the last four numbers of a record. The number and the use are 0 where there is none, as in the item record.
#![tactic(auto)]

ghost use Rattle.std.specs.Prelude.{◌≡◌, ◌+◌, ◌%◌, ◌<◌};
ghost use Rattle.base.specs.Pick.{pick};
ghost use Rattle.uses.specs.Uses.{used_at, last_use, alike_at, last_alike, set_last};
ghost use Rattle.base.specs.Found.{Found};
ghost use Rattle.uses.specs.Uses.{Counts};
ghost use Rattle.records.specs.Bounds.{record_bound, source_bound};

use base::search::last_place;
use records::{
    ITEM_LABEL, ITEM_LABEL_LENGTH, ITEM_MARKS, ITEM_NUMBER, ITEM_USE, ITEM_WIDTH, field, key_in,
    put,
};

// The number and the use of an item record, and the sources after it.
#[derive(Clone, Copy)]
pub struct Count {
    pub number: u16,
    pub use_index: u16,
    pub sources: usize,
}

// Whether item record `j` is numbered, and has the key `key`. That a record's number is below `record_bound` is a clause of each function here,
// and no narrower type: `u32` was the other choice, and each call would cast the counter of a loop. `text` and `items` are two
// parameters: a value made of both would be made anew for each record, since the records are written in between.
#[tactic(auto, using(base::proofs::Sames::same_pointwise))]
pub fn is_use(text: &[u8], items: &[u16], j: usize, key: &[u8]) -> bool
    requires { j < record_bound }
    ensures { result ≡ used_at text.now items.now key.now j }
{
    0 < field::<ITEM_WIDTH>(items, j, ITEM_NUMBER) && key_in(text, items, j) == key
}

// The last item record before `k` that is numbered and has the key of record `k`.
#[tactic(auto, using(crate::proofs::UseLaws::found_before), unfolding(crate::specs::Uses::last_use, crate::specs::Uses::same_use))]
pub fn last_use(text: &[u8], items: &[u16], k: usize) -> Option<usize>
    requires { k < record_bound }
    ensures { Found k (last_use text.now items.now k) result }
{
    let key = key_in(text, items, k);
    last_place(k, |j| is_use(text, items, j, key))
}

// Whether item record `j` has the number `number`, the mark of suppression `mark` and the key `key`.
#[tactic(auto, using(base::proofs::Sames::same_pointwise))]
fn is_alike(text: &[u8], items: &[u16], number: usize, mark: usize, key: &[u8], j: usize) -> bool
    requires { j < record_bound }
    ensures { result ≡ alike_at text.now items.now number mark key.now j }
{
    field::<ITEM_WIDTH>(items, j, ITEM_NUMBER) == number
        && field::<ITEM_WIDTH>(items, j, ITEM_MARKS) == mark
        && key_in(text, items, j) == key
}

// The last item record before `k` that has the number `number`, and the mark of suppression and the key of record `k`: it has the label of
// record `k` with that number.
#[tactic(auto, using(crate::proofs::UseLaws::found_before), unfolding(crate::specs::Uses::last_alike, crate::specs::Uses::same_label))]
pub fn last_alike(text: &[u8], items: &[u16], k: usize, number: usize) -> Option<usize>
    requires { k < record_bound }
    ensures { Found k (last_alike text.now items.now k number) result }
{
    let mark = field::<ITEM_WIDTH>(items, k, ITEM_MARKS);
    let key = key_in(text, items, k);
    last_place(k, |j| is_alike(text, items, number, mark, key, j))
}

// The use after the use `before`; 0 without a pool.
fn next_use(pooled: bool, before: u16) -> u16
    ensures { result ≡ pick pooled ((before + 1) % 65536) 0 }
{
    if pooled { before.wrapping_add(1) } else { 0 }
}

// The number and the use of item record `k`, with `sources` before it. (`%`: `sources` may be more than a record's number holds.) The check proves
// that each `as` fits; `try_from` would answer a refusal that cannot come.
pub fn count_in(text: &[u8], items: &[u16], pooled: bool, sources: usize, k: usize) -> Count
    requires { (k < record_bound) × (sources < source_bound) }
    ensures { Counts text.now items.now pooled sources k result }
{
    match last_use(text, items, k) {
        Some(j) => Count {
            number: field::<ITEM_WIDTH>(items, j, ITEM_NUMBER) as u16,
            use_index: next_use(pooled, field::<ITEM_WIDTH>(items, j, ITEM_USE) as u16),
            sources,
        },
        None => Count {
            number: ((sources + 1) % 65536) as u16,
            use_index: next_use(pooled, 0),
            sources: sources + 1,
        },
    }
}

// The last four numbers of item record `k`.
#[tactic(auto, unfolding(crate::specs::Uses::set_last))]
pub fn set_last(items: &mut [u16], k: usize, number: u16, use_index: u16, at: u16, len: u16)
    requires { k < record_bound }
    ensures { items.new ≡ set_last items.old k number use_index at len }
{
    let record = ITEM_WIDTH * k;
    put(items, record + ITEM_NUMBER, number);
    put(items, record + ITEM_USE, use_index);
    put(items, record + ITEM_LABEL, at);
    put(items, record + ITEM_LABEL_LENGTH, len);
}
