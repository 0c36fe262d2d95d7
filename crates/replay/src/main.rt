// Replays the Rust's stored answers, data/answers, against the proved functions, and says for each kind how many agree.
// docs/DIFFERENCES.md says how the list was made and how it is laid out.
#![tactic(auto)]

ghost use Rattle.std.specs.Prelude.{length};
ghost use Rattle.std.specs.Iterator.{at_most};

use replay_body::body::Body;
use std::fs::File;
use std::io::{Read, Write};
use std::rt::Files;
use std::{fmt, io};

// What is answered by a record, with the number of its kind.
#[derive(Clone, Copy)]
enum Kind {
    Utf8 = 1,
    Escaped = 2,
    Key = 3,
    White = 4,
    Trim = 5,
    Close = 6,
    Locator = 7,
    Item = 8,
    Pool = 9,
    Source = 10,
    LookUp = 11,
    Annotate = 12,
}

// All kinds, in the order in which they are replayed.
const KINDS: [Kind; 12] = [
    Kind::Utf8,
    Kind::Escaped,
    Kind::Key,
    Kind::White,
    Kind::Trim,
    Kind::Close,
    Kind::Locator,
    Kind::Item,
    Kind::Pool,
    Kind::Source,
    Kind::LookUp,
    Kind::Annotate,
];

impl From<Kind> for u8 {
    // The number of the kind in the list.
    fn from(kind: Kind) -> u8 {
        kind as u8
    }
}

impl fmt::Display for Kind {
    // The name of the kind.
    fn fmt<W: fmt::Write>(&self, f: &mut fmt::Formatter<W>) -> fmt::Result {
        f.write_str(match self {
            Kind::Utf8 => "utf8",
            Kind::Escaped => "escaped",
            Kind::Key => "key",
            Kind::White => "white",
            Kind::Trim => "trim",
            Kind::Close => "close",
            Kind::Locator => "locator",
            Kind::Item => "item",
            Kind::Pool => "pool",
            Kind::Source => "source",
            Kind::LookUp => "lookup",
            Kind::Annotate => "annotate",
        })
    }
}

impl Kind {
    // Whether the proved function of this kind gives the answer that the record's body holds. (A `match` and no table of functions: the check sees
    // that no kind is left out.)
    fn agrees(self, body: Body<'_>) -> bool {
        match self {
            Kind::Utf8 => replay_calls::texts::utf8_agrees(body),
            Kind::Escaped => replay_calls::texts::escaped_agrees(body),
            Kind::Key => replay_calls::texts::key_agrees(body),
            Kind::White => replay_calls::texts::white_agrees(body),
            Kind::Trim => replay_calls::texts::trim_agrees(body),
            Kind::Close => replay_calls::parts::close_agrees(body),
            Kind::Locator => replay_calls::parts::locator_agrees(body),
            Kind::Item => replay_calls::parts::item_agrees(body),
            Kind::Pool => replay_calls::pools::pool_agrees(body),
            Kind::Source => replay_calls::pools::source_agrees(body),
            Kind::LookUp => replay_calls::look_ups::look_ups_agree(body),
            Kind::Annotate => replay_calls::annotations::annotations_agree(body),
        }
    }
}

// The records of one kind: how many there are, how many agree, and the number of the first that does not, from 1.
#[derive(Default, Drop)]
struct Tally {
    all: u64,
    same: u64,
    first: Option<u64>,
}

impl Tally {
    // One record more.
    fn count(&mut self, agrees: bool) {
        self.all = self.all.wrapping_add(1);
        if agrees {
            self.same = self.same.wrapping_add(1);
        } else {
            self.first = self.first.or(Some(self.all));
        }
    }
}

// The records of a block: the kind, the body's length in three bytes, the body; the last one may be cut off.
#[derive(Drop)]
struct Records<'a>(&'a [u8]);

impl<'a> Iterator for Records<'a> {
    type Item = &'a [u8];

    ghost remaining = { λ s. at_most (length s.0.now) };

    // The record at the front of what is left.
    fn next(&mut self) -> Option<&'a [u8]> {
        if self.0.is_empty() {
            return None;
        }
        let end = 4 + Body(self.0).length(1);
        let (record, rest) = self.0.split_at_checked(end).unwrap_or((self.0, &[]));
        self.0 = rest;
        Some(record)
    }
}

// Counts the records of this kind in a block. One cut off does not agree. The block's unused rest is zeros, which read as empty records of no
// kind.
fn count_block(tally: &mut Tally, kind: Kind, block: &[u8]) {
    for record in Records(block) {
        if record.len() >= 4 && record[0] == u8::from(kind) {
            let body = Body(&record[4..]);
            let is_whole = Body(record).length(1) == body.0.len();
            tally.count(is_whole && kind.agrees(body));
        }
    }
}

// The length of a block of the list, and the most blocks of it that are read.
const BLOCK: usize = 1048576;

const BLOCKS: u32 = 1000000;

// The tally of a kind over the whole list, read by blocks. (An array and no `Vec`, which may have no memory.)
fn count_all<R: Read>(kind: Kind, list: &mut R) -> io::Result<Tally> {
    let mut block = [0u8; BLOCK];
    let mut tally = Tally::default();
    for _ in 0..BLOCKS {
        let n = reading::read_full(list, &mut block)?;
        if n == 0 {
            break;
        }
        count_block(&mut tally, kind, &block[..n]);
    }
    Ok(tally)
}

// Writes what became of a kind.
fn say<W: Write>(out: &mut W, kind: Kind, tally: Tally) -> io::Result<()> {
    write!(out, "{kind} {} of {} agree", tally.same, tally.all)?;
    if let Some(number) = tally.first {
        write!(out, ", not number {number}")?;
    }
    out.write_all(b"\n")
}

// Replays a kind, and writes what became of it; where the list cannot be opened, why, to standard error.
fn replay<R: Files + Print + Eprint>(rt: &R, kind: Kind) -> io::Result<()> {
    let path = "answers";
    match File::open(rt, path) {
        Ok(mut list) => say(&mut io::writer(rt), kind, count_all(kind, &mut list)?),
        Err(error) => eprintln!(rt; "{path}: {error}"),
    }
}

// Replays each kind.
fn main(rt: HostRuntime) -> io::Result<()> {
    for kind in KINDS {
        replay(&rt, kind)?;
    }
    Ok(())
}
