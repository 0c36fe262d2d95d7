// A session: a text, and calls on it one after the other, with index and note kept between them.
// What the index area holds before the first call, and whether it holds the stored index after the last.
ghost use Rattle.std.specs.Prelude.{◌≡◌, ◌≤◌, ◌+◌, ◌*◌, IsTrue, drop, get_or, length, vec_len};
ghost use Rattle.replay_body.specs.Bodies.{number_at, text_of};

use crate::areas::{AreaSlices, Areas, is_all};
use crate::body::Body;
use resolve::BUILT;

// The body of a record of calls.
#[derive(Clone, Copy)]
pub struct Session<'a>(pub Body<'a>);

impl<'a> Session<'a> {
    // The text: the body's end.
    pub fn text(self) -> &'a [u8]
        ensures { result.now ≡ text_of self.entry.0.0.now }
    {
        self.0.after(self.0.length(0)).0
    }

    // The note that the first call is given.
    fn first_note(self) -> u8
        ensures { result ≡ get_or self.entry.0.0.now 3 0 }
    {
        self.0.byte(3)
    }

    // What the index area holds before the first call.
    fn left_over(self) -> u16 {
        self.0.word(4)
    }

    // How many calls there are.
    pub fn count(self) -> usize
        ensures { result ≤ 65535 }
    {
        self.0.number(6)
    }

    // How many entries the stored index has.
    fn entry_count(self) -> usize
        ensures { (result ≡ number_at self.entry.0.0.now 8) × (result ≤ 65535) }
    {
        self.0.number(8)
    }

    // An entry of the stored index: a place, and its close.
    fn entry(self, k: usize) -> (usize, u16)
        requires { k ≤ 65535 }
    {
        let entry = self.0.after(10 + 4 * k);
        (entry.number(0), entry.word(2))
    }

    // Where the first call begins.
    pub fn calls_at(self) -> usize
        ensures place { result ≡ 10 + 4 * number_at self.entry.0.0.now 8 }
        ensures within { result ≤ 262150 }
    {
        10 + 4 * self.entry_count()
    }

    // The first call, and what follows it.
    pub fn calls(self) -> Body<'a>
        ensures { result.0.now ≡ drop (10 + 4 * number_at self.entry.0.0.now 8) self.entry.0.0.now }
    {
        self.0.after(self.calls_at())
    }

    // Makes note and index area what the first call is lent: the stored index where the note says that it is built, and what is left over.
    // Of two entries with one place the first stays.
    pub fn start_in(self, areas: &mut AreaSlices<'_>) {
        areas.note = self.first_note();
        areas.index.fill(self.left_over());
        if areas.note != BUILT {
            return;
        }
        let n = self.text().len().min(areas.index.len());
        areas.index[..n].fill(0);
        for k in (0..self.entry_count()).rev() {
            let (place, close) = self.entry(k);
            if let Some(value) = areas.index.get_mut(place) {
                *value = close;
            }
        }
    }

    // Makes note and index area of the heap what the first call is lent, as `start_in` does. The areas of an answer stay as they are.
    pub fn start(self, areas: &mut Areas)
        ensures note { areas.new.note ≡ get_or self.entry.0.0.now 3 0 }
        ensures kept { (areas.new.items ≡ areas.old.items) × (areas.new.groups ≡ areas.old.groups)
            × (areas.new.references ≡ areas.old.references) × (areas.new.labels ≡ areas.old.labels) }
    {
        let mut slices = AreaSlices {
            note: areas.note,
            index: &mut areas.index,
            items: &mut [],
            groups: &mut [],
            references: &mut [],
            labels: &mut [],
        };
        self.start_in(&mut slices);
        let note = self.first_note();
        areas.note = note;
    }

    // Whether the places of the text hold the stored index: its entries in their order, each with its close at its place, and zeros elsewhere.
    fn has_entries(self, index: &[u16]) -> bool {
        let mut entries = (0..self.entry_count()).map(|k| self.entry(k)).peekable();
        for (place, close) in index.iter().enumerate() {
            let stored = entries
                .next_if(|entry| entry.0 == place)
                .map_or(0, |entry| entry.1);
            if *close != stored {
                return false;
            }
        }
        entries.next().is_none()
    }

    // Whether the index area is as it should be after the calls: built where the note says so, else as it was.
    // (A text as long as the area is refused whatever the index, which isn't compared then.)
    pub fn has_index_in(self, areas: &AreaSlices<'_>) -> bool {
        let n = if areas.note == BUILT {
            self.text().len()
        } else {
            0
        };
        areas.index.split_at_checked(n).is_some_and(|(built, rest)| {
            (areas.note != BUILT || rest.is_empty() || self.has_entries(built))
                && is_all(rest, self.left_over())
        })
    }

    // Whether the index area of the heap is as it should be after the calls, also of a text as long as the area.
    // (Beside `has_index_in`: an area that is lent for reading gives no `AreaSlices`.)
    pub fn has_index(self, areas: &Areas) -> bool
        ensures { IsTrue result → areas.now.note ≡ 1 → length (text_of self.entry.0.0.now) ≤ vec_len areas.now.index }
    {
        let is_built = areas.note == BUILT;
        let places = if is_built { self.text().len() } else { 0 };
        areas.index.split_at_checked(places).is_some_and(|(built, rest)| {
            (!is_built || self.has_entries(built)) && is_all(rest, self.left_over())
        })
    }
}
