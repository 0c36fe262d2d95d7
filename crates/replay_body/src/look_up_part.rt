// A look-up in a body: place, number, close, item count, note and twelve numbers an item.
// Whether the item area holds what is stored.
ghost use Rattle.std.specs.Prelude.{◌≡◌, ◌≤◌, ◌*◌, IsTrue, drop, get_or, length};
ghost use Rattle.records.specs.Widths.{item_width};
ghost use Rattle.replay_body.specs.Bodies.{number_at};
ghost use Rattle.replay_body.specs.Calls.{look_up_length, LookUpNumbers};

use crate::areas::{AreaSlices, UNUSED, holds_numbers, is_all, refill};
use crate::body::Body;

// What a body holds from a look-up on.
#[derive(Clone, Copy)]
pub struct StoredLookUp<'a>(pub Body<'a>);

impl<'a> StoredLookUp<'a> {
    // The look-up as if it began at byte 0, so that `next` goes on.
    fn first(self) -> LookUpAt<'a>
        ensures { (result.part ≡ self.entry.0) × (result.at ≡ 0) }
    {
        LookUpAt {
            part: self.0,
            at: 0,
        }
    }

    // The place that is asked about.
    pub fn place(self) -> usize
        ensures { result ≤ 65535 }
    {
        self.first().place()
    }

    // The numbers of the answer: 0 or a refusal's number, then the place of the close and the item count.
    pub fn numbers(self) -> (usize, [usize; 2])
        ensures { LookUpNumbers self.entry.0.0.now result.0 result.1 }
    {
        self.first().numbers()
    }

    // The note of the answer: the lower byte of the number that the list has.
    pub fn note(self) -> u8
        ensures { result ≡ get_or self.entry.0.0.now 8 0 }
    {
        self.0.byte(8)
    }

    // Whether the item area holds the stored records, and nothing after them.
    pub fn has_items(self, items: &[u16]) -> bool
        ensures { IsTrue result → item_width * number_at self.entry.0.0.now 6 ≤ length items.now }
    {
        self.first().has_items(items)
    }

    // The look-up after this one.
    pub fn next(self) -> StoredLookUp<'a>
        ensures { result.0.0.now ≡ drop (look_up_length self.entry.0.0.now) self.entry.0.0.now }
    {
        StoredLookUp(self.first().next().part)
    }
}

// What a body holds from a look-up on, and at which of its bytes that begins.
#[derive(Clone, Copy)]
pub struct LookUpAt<'a> {
    pub part: Body<'a>,
    pub at: usize,
}

// The last byte of a body behind which no other look-up is read.
const LAST: usize = 1000000;

impl<'a> LookUpAt<'a> {
    // The place that is asked about.
    pub fn place(self) -> usize
        ensures { result ≤ 65535 }
    {
        self.part.number(0)
    }

    // The numbers of the answer: 0 or a refusal's number, then the place of the close and the item count. (Numbers in place of a `Result`: the
    // list has them so.)
    pub fn numbers(self) -> (usize, [usize; 2])
        ensures { LookUpNumbers self.entry.part.0.now result.0 result.1 }
    {
        (
            self.part.number(2),
            [self.part.number(4), self.part.number(6)],
        )
    }

    // The note of the answer. (A number of two bytes in the list, of which a note is the lower one.)
    pub fn note(self) -> u16 {
        self.part.word(8)
    }

    // Whether the item area holds the records, each with the stored twelve numbers and zeros behind them, and nothing after them.
    pub fn has_items(self, items: &[u16]) -> bool
        ensures { IsTrue result → item_width * number_at self.entry.part.0.now 6 ≤ length items.now }
    {
        let count = self.part.number(6);
        let Some((records, rest)) = items.split_at_checked(records::ITEM_WIDTH * count) else {
            return false;
        };
        let mut row = self.part.after(10);
        for record in records.chunks_exact(records::ITEM_WIDTH) {
            if !holds_numbers(record, 12, row, 0) {
                return false;
            }
            row = row.after(24);
        }
        is_all(rest, UNUSED)
    }

    // Makes the item area what it was before the call.
    pub fn clear(self, areas: &mut AreaSlices<'_>) {
        refill(
            areas.items,
            records::ITEM_WIDTH * self.part.number(6),
            UNUSED,
        );
    }

    // The look-up after this one; this one again behind `LAST`.
    pub fn next(self) -> LookUpAt<'a>
        ensures { self.entry.at ≤ 1000000 → result.part.0.now ≡ drop (look_up_length self.entry.part.0.now) self.entry.part.0.now }
    {
        if LAST < self.at {
            return self;
        }
        let n = 10 + 24 * self.part.number(6);
        LookUpAt {
            part: self.part.after(n),
            at: self.at + n,
        }
    }
}
