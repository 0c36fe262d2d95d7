// The lent areas: what they hold before a call,
// and whether they hold the stored values after it.
ghost use Rattle.std.specs.Prelude.{◌≡◌, ◌≤◌, ◌<◌, IfOk, IsTrue, length};
ghost use Rattle.replay_body.specs.Areas.{HasRoom, IsCleared};

use crate::body::Body;
use std::alloc::{AllocError, Global};

// What an area of numbers holds where no call wrote.
pub const UNUSED: u16 = 43690;

// What an area of bytes holds where no call wrote.
pub const BLANK: u8 = 170;

// The longest text for which short areas are lent. (There are two lengths, since after each call its areas are read whole.)
pub const SHORT: usize = 1000;

// How many label bytes there is room for.
const LABEL_BYTES: usize = 66000;

// The note and the areas that the calls of a session are lent. The note is a number, since the list may have any byte there. A look-up is lent an
// index and items: the other areas are empty there.
#[derive(Drop)]
pub struct AreaSlices<'a> {
    pub note: u8,
    pub index: &'a mut [u16],
    pub items: &'a mut [u16],
    pub groups: &'a mut [u16],
    pub references: &'a mut [u16],
    pub labels: &'a mut [u8],
}

// A note and areas on the heap, for a caller that keeps them over many sessions. (`AreaSlices` borrows its areas, which may be arrays.)
#[derive(Drop)]
pub struct Areas {
    pub note: u8,
    pub index: Vec<u16>,
    pub items: Vec<u16>,
    pub groups: Vec<u16>,
    pub references: Vec<u16>,
    pub labels: Vec<u8>,
}

impl Areas {
    // Areas with room for an index of `index` places, `items` item records and `groups` group records.
    fn with_room(
        alloc: Global,
        index: usize,
        items: usize,
        groups: usize,
    ) -> Result<Areas, AllocError>
        requires { (index ≤ 65536) × (items ≤ 65536) × (groups ≤ 65536) }
        ensures room { IfOk result (λ areas. HasRoom index items groups areas) }
        ensures cleared { IfOk result IsCleared }
    {
        Ok(Areas {
            note: 0,
            index: vec![in alloc; 0u16; index]?,
            items: vec![in alloc; UNUSED; records::ITEM_WIDTH * items]?,
            groups: vec![in alloc; UNUSED; records::GROUP_WIDTH * groups]?,
            references: vec![in alloc; UNUSED; groups]?,
            labels: vec![in alloc; BLANK; LABEL_BYTES]?,
        })
    }

    // Areas with room for what is said of a text of up to `SHORT` bytes.
    fn short(alloc: Global) -> Result<Areas, AllocError>
        ensures { IfOk result (λ areas. HasRoom 1024 344 256 areas × IsCleared areas) }
    {
        Areas::with_room(alloc, 1024, 344, 256)
    }

    // Areas with room for what is said of any text.
    fn long(alloc: Global) -> Result<Areas, AllocError>
        ensures { IfOk result (λ areas. HasRoom 65536 21846 16400 areas × IsCleared areas) }
    {
        Areas::with_room(alloc, 65536, 21846, 16400)
    }

    // Makes the areas of an answer what they were before the first call.
    pub fn clear(&mut self)
        ensures cleared { IsCleared self.new }
        ensures kept { (self.new.note ≡ self.old.note) × (self.new.index ≡ self.old.index) }
    {
        self.items.fill(UNUSED);
        self.groups.fill(UNUSED);
        self.references.fill(UNUSED);
        self.labels.fill(BLANK);
    }
}

// The areas for texts of up to `SHORT` bytes, and those for all others.
#[derive(Drop)]
pub struct Lent {
    short: Areas,
    long: Areas,
}

impl Lent {
    // All areas.
    pub fn new(alloc: Global) -> Result<Lent, AllocError>
        ensures short { IfOk result (λ lent. HasRoom 1024 344 256 lent.short × IsCleared lent.short) }
        ensures long { IfOk result (λ lent. HasRoom 65536 21846 16400 lent.long × IsCleared lent.long) }
    {
        Ok(Lent {
            short: Areas::short(alloc)?,
            long: Areas::long(alloc)?,
        })
    }

    // The areas for a text of `n` bytes.
    pub fn for_text(&mut self, n: usize) -> &mut Areas
        ensures short { n ≤ 1000 → result.now ≡ self.old.short }
        ensures long { 1000 < n → result.now ≡ self.old.long }
    {
        if n <= SHORT {
            &mut self.short
        } else {
            &mut self.long
        }
    }
}

// Puts `value` at the first `n` places. `n` is a count that the list has: where the area is shorter, it is filled whole.
pub fn refill<T: Copy>(area: &mut [T], n: usize, value: T) {
    for place in area.iter_mut().take(n) {
        *place = value;
    }
}

// Whether `value` stands at every place. (A `fold`, which is built to compare many places at once: with `all` the annotations of a short text
// took 1.2 times the time.)
pub fn is_all<T: Copy + PartialEq>(area: &[T], value: T) -> bool {
    area.iter().fold(true, |all, x| all & (*x == value))
}

// Whether an area holds the `n` numbers that `body` begins with, and `rest` behind them. `n` is a count that the list has, and no length of the area.
// (Beside `holds_bytes`: numbers are compared one by one, bytes as they lie.)
pub fn holds_numbers(area: &[u16], n: usize, body: Body<'_>, rest: u16) -> bool
    ensures { IsTrue result → n ≤ length area.now }
{
    area.split_at_checked(n).is_some_and(|(numbers, after)| {
        numbers
            .iter()
            .enumerate()
            .all(|(i, x)| *x == body.word(2 * i))
            && is_all(after, rest)
    })
}

// Whether an area holds the first `n` bytes of `body`, and `rest` behind them. `n` is a count that the list has, and no length of the area.
pub fn holds_bytes(area: &[u8], n: usize, body: Body<'_>, rest: u8) -> bool
    ensures { IsTrue result → n ≤ length area.now }
{
    area.split_at_checked(n).is_some_and(|(bytes, after)| body.0.starts_with(bytes)
        && is_all(after, rest))
}
