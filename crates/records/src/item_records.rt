// Item records: the 16 numbers of an item, and the records of all items of a group, written to the front of a lent area.
// The last four of a record, which numbering fills, are 0.
ghost use Rattle.std.specs.Prelude.{◌≡◌, ◌≤◌, length};
ghost use Rattle.base.specs.Lists.{written};
ghost use Rattle.item.specs.Items.{item_of};
ghost use Rattle.item.specs.Group.{group_of};
ghost use Rattle.records.specs.ItemRecords.{unnumbered_record, records_of};
ghost use Rattle.records.specs.Writing.{piece_record, NarrowItem, Writable};
ghost use Rattle.records.specs.Widths.{item_width};

use crate::ITEM_WIDTH;
use item::{GroupPieces, Item, parse_item};
use locator::{code_of, suffix_of, value_of};

// The record of an item. The check proves that each `as` fits; `try_from` would answer a refusal that cannot come.
#[tactic(auto, unfolding(crate::specs::ItemRecords::unnumbered_record, crate::specs::ItemRecords::item_record, crate::specs::ItemRecords::marks_of))]
fn record_of(item: Item) -> [u16; ITEM_WIDTH]
    requires { NarrowItem item }
    ensures { result ≡ unnumbered_record item }
{
    let value = value_of(item.parts);
    let suffix = suffix_of(item.parts);
    [
        item.prefix.at as u16,
        item.prefix.len as u16,
        item.key.at as u16,
        item.key.len as u16,
        item.locator.at as u16,
        item.locator.len as u16,
        value.at as u16,
        value.len as u16,
        suffix.at as u16,
        suffix.len as u16,
        code_of(item.parts),
        u16::from(item.suppressed),
        0,
        0,
        0,
        0,
    ]
}

// The record of the item from `from` to `to`, at the front of `row`; nothing where it is bad.
#[tactic(auto, using(crate::proofs::RecordLaws::piece_record_laws))]
fn write_piece(text: &[u8], from: usize, to: usize, row: &mut [u16])
    requires { (to ≤ length text.now) × (length text.now ≤ 65535) × (item_width ≤ length row.old) }
    ensures { row.new ≡ written (piece_record (item_of text.now from to)) row.old }
{
    if let Some(item) = parse_item(text, from, to) {
        row[..ITEM_WIDTH].copy_from_slice(&record_of(item));
    }
}

// The records of the items of the group at `p` with its close at `c`, at the front of `items`. (`n` is counted: `zip` with
// `chunks_exact_mut` and `enumerate` were tried, and the proofs did not close: what stands in the area after the one, and that the count of the
// other stays below 2^64, was not found.)
pub fn write_records(text: &[u8], p: usize, c: usize, items: &mut [u16])
    requires { Writable text.now p c items.old }
    ensures { items.new ≡ written (records_of (group_of text.now p c)) items.old }
{
    let mut n = 0;
    for piece in GroupPieces::between(text, p, c) {
        write_piece(text, piece.from, piece.to, &mut items[n..]);
        n += ITEM_WIDTH;
    }
}
