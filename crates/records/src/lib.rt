// Item and group records as they lie in the lent areas. Any numbers may stand there: what is past the end of an area counts as 0. An area is flat,
// and a record is read by its number and a place in it: C lends an area of numbers.
#![tactic(auto)]

pub mod item_records;

ghost use Rattle.std.specs.Prelude.{◌≡◌, ◌+◌, ◌<◌, get_or, set};
ghost use Rattle.records.specs.Facts.{ItemPlaces, MarksBelow};
ghost use Rattle.records.specs.Records.{key_in, suppressed_in, bare_in, close_of_record, next_in};
ghost use Rattle.records.specs.Fields.{field_at};
ghost use Rattle.records.specs.Bounds.{record_bound};

// How many numbers an item record has.
pub const ITEM_WIDTH: usize = 16;

// Where the numbers of an item record stand: the offset and the length of each pair, the label code, the marks, the number, the use.
// All are named, also those that nothing reads by name: the table is the layout.
pub const ITEM_PREFIX: usize = 0;

pub const ITEM_PREFIX_LENGTH: usize = 1;

pub const ITEM_KEY: usize = 2;

pub const ITEM_KEY_LENGTH: usize = 3;

pub const ITEM_LOCATOR: usize = 4;

pub const ITEM_LOCATOR_LENGTH: usize = 5;

pub const ITEM_VALUE: usize = 6;

pub const ITEM_SUFFIX: usize = 8;

pub const ITEM_CODE: usize = 10;

pub const ITEM_MARKS: usize = 11;

pub const ITEM_NUMBER: usize = 12;

pub const ITEM_USE: usize = 13;

pub const ITEM_LABEL: usize = 14;

pub const ITEM_LABEL_LENGTH: usize = 15;

// How many numbers a group record has.
pub const GROUP_WIDTH: usize = 5;

// Where the numbers of a group record stand.
pub const GROUP_PLACE: usize = 0;

pub const GROUP_LENGTH: usize = 1;

pub const GROUP_FIRST: usize = 2;

pub const GROUP_COUNT: usize = 3;

pub const GROUP_STANDING: usize = 4;

// The number at place `i` of an area; 0 past its end. A function for its contract: `get_or` is what the clauses of its callers say.
pub fn number_at(area: &[u16], i: usize) -> usize
    ensures { (result ≡ get_or area.now i 0) × (result < 65536) }
{
    usize::from(area.get(i).copied().unwrap_or(0))
}

// The number `v` at place `i` of an area; nothing past its end.
pub fn put(area: &mut [u16], i: usize, v: u16)
    ensures { area.new ≡ set area.old i v }
{
    if i < area.len() {
        area[i] = v;
    }
}

// The number at place `c` of record `k`, in an area of records of `WIDTH` numbers: `ITEM_WIDTH` for items, `GROUP_WIDTH` for groups. That `k` is
// below `record_bound` is a clause, here and below, and no narrower type: `u32` was the other choice, and each call would cast the counter of a
// loop.
#[tactic(auto, unfolding(crate::specs::Fields::field_at))]
pub fn field<const WIDTH: usize>(area: &[u16], k: usize, c: usize) -> usize
    requires { (WIDTH < 65536) × (k < record_bound) × (c < 65536) }
    ensures { (result ≡ field_at WIDTH area.now k c) × (result < 65536) }
{
    number_at(area, WIDTH * k + c)
}

// The key of item record `k`.
#[tactic(auto, unfolding(crate::specs::Records::key_in))]
pub fn key_in<'a>(text: &'a [u8], items: &[u16], k: usize) -> &'a [u8]
    requires { k < record_bound }
    ensures { result.now ≡ key_in text.now items.now k }
{
    let at = field::<ITEM_WIDTH>(items, k, ITEM_KEY);
    let len = field::<ITEM_WIDTH>(items, k, ITEM_KEY_LENGTH);
    base::slices::part_of(text, at, len)
}

// Whether item record `k` is marked as suppressed.
#[tactic(auto, unfolding(crate::specs::Records::suppressed_in))]
pub fn suppressed_in(items: &[u16], k: usize) -> bool
    requires { k < record_bound }
    ensures { result ≡ suppressed_in items.now k }
{
    field::<ITEM_WIDTH>(items, k, ITEM_MARKS) == 1
}

// Whether item record `k` has no prefix and no locator, and is not suppressed.
#[tactic(auto, unfolding(crate::specs::Records::bare_in))]
pub fn bare_in(items: &[u16], k: usize) -> bool
    requires { k < record_bound }
    ensures { result ≡ bare_in items.now k }
{
    field::<ITEM_WIDTH>(items, k, ITEM_PREFIX_LENGTH) == 0
        && field::<ITEM_WIDTH>(items, k, ITEM_LOCATOR_LENGTH) == 0
        && !suppressed_in(items, k)
}

// The place of the close of group record `g`.
#[tactic(auto, unfolding(crate::specs::Records::close_of_record))]
pub fn close_of_record(groups: &[u16], g: usize) -> usize
    requires { g < record_bound }
    ensures { result ≡ close_of_record groups.now g }
{
    let end = field::<GROUP_WIDTH>(groups, g, GROUP_PLACE)
        + field::<GROUP_WIDTH>(groups, g, GROUP_LENGTH);
    end.saturating_sub(1)
}

// Where the group after number `g` of `n` begins; the text's end where there is none.
#[tactic(auto, unfolding(crate::specs::Records::next_in))]
pub fn next_in(text: &[u8], groups: &[u16], n: usize, g: usize) -> usize
    requires { g + 1 < record_bound }
    ensures { result ≡ next_in text.now groups.now n g }
{
    if g + 1 < n {
        field::<GROUP_WIDTH>(groups, g + 1, GROUP_PLACE)
    } else {
        text.len()
    }
}

// The theorems of specs/Facts. The function does nothing; its contract states them.
pub fn theorems()
    ensures item_places { ItemPlaces }
    ensures marks_below { MarksBelow }
{}
