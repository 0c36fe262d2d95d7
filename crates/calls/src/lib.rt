// The public calls. Each takes any arguments and answers by a Result, with the note beside it where an index is lent; a definition gives its
// numbers and values (specs/Values of its crate).
// The layouts of records and areas, the note, the refusals and what each leaves behind are in include/citations.h, the manual of these calls.
// A note and a mode are numbers, since C gives any byte: a note that is not 1 comes back as it was, and a mode that is none is refused.
#![tactic(auto)]

ghost use Rattle.std.specs.Prelude.{◌≡◌};
ghost use Rattle.annotation.specs.Content.{areas};
ghost use Rattle.histories.specs.Promises.{LookUpPromise, AnnotatePromise};
ghost use Rattle.lookup.specs.Others.{locator_call, size_call};
ghost use Rattle.lookup.specs.Values.{locator_values, locator_numbers, locator_answer, size_values, size_numbers, size_answer};
ghost use Rattle.source_text.specs.Call.{source_text_call};
ghost use Rattle.source_text.specs.Values.{source_text_values, source_text_numbers, source_text_answer};

pub use annotation::answer::{Annotation, Counts};
use annotation::completion::finish;
use annotation::preparation::{prepare, wants_build};
pub use base::refusal::Refusal;
pub use index::Bracket;
pub use locator::Locator;
pub use lookup::LookUp;
pub use resolve::Group;
use resolve::Indexed;

// The group at the bracket at `at`: the place of its close, the count of its items and the note, and the item records at the front of `items`.
// Refusals: 1, 2, 3, 4, 9, 5, 10.
pub fn look_up(
    text: &[u8],
    at: usize,
    note: u8,
    index: &mut [u16],
    records: &mut [Bracket],
    items: &mut [u16],
) -> LookUp
    ensures { LookUpPromise text.now at note index.old records.old items.old
        result index.new records.new items.new }
{
    let indexed = Indexed { text, note, index };
    let prepared = lookup::prepare(indexed, at, records.len());
    index::brackets::build_when(lookup::wants_build(prepared), text, index, records);
    let indexed = Indexed { text, note, index };
    lookup::finish(indexed, at, prepared, items)
}

// The groups of the text: the counts of groups, items, sources and label bytes and the note, and at the front of each area its records:
// items, groups, one number a source in reference order, and the labels one after the other.
// Refusals: 1, 2, 6, 7, 9, 10; 10 fills the four areas with zeros.
pub fn annotate<'a>(
    text: &'a [u8],
    mode: u8,
    pool: &'a [u8],
    note: u8,
    index: &mut [u16],
    records: &mut [Bracket],
    items: &mut [u16],
    groups: &mut [u16],
    references: &mut [u16],
    labels: &mut [u8],
) -> Annotation
    ensures { let given = areas items.old groups.old references.old labels.old in
        let left = areas items.new groups.new references.new labels.new in
        AnnotatePromise text.now mode pool.now note index.old records.old given
        result index.new records.new left }
{
    let indexed = Indexed { text, note, index };
    let prepared = prepare(indexed, mode, pool, records.len(), items, groups);
    index::brackets::build_when(wants_build(prepared), text, index, records);
    let indexed = Indexed { text, note, index };
    finish(indexed, prepared, items, groups, references, labels)
}

// How many item records any annotation of the text needs at most. Refusals: 1, 2.
pub fn size(text: &[u8]) -> Result<usize, Refusal>
    ensures { (result ≡ size_answer (size_call text.now)) × (size_values result ≡ size_numbers (size_call text.now)) }
{
    lookup::size_call(text)
}

// The locator that the whole text is: label code, value pair and suffix pair. Refusals: 1, 2.
pub fn locator(text: &[u8]) -> Result<Locator, Refusal>
    ensures { (result ≡ locator_answer (locator_call text.now)) × (locator_values result ≡ locator_numbers (locator_call text.now)) }
{
    lookup::locator_call(text)
}

// The text of the pool's entry number `entry`, at the front of `area`: the bytes written. Refusals: 7, 8, 10.
pub fn source_text(pool: &[u8], entry: usize, area: &mut [u8]) -> Result<usize, Refusal>
    ensures { let ran = source_text_call pool.now entry area.old in
        (result ≡ source_text_answer ran) × (source_text_values result ≡ source_text_numbers ran) × (area.new ≡ ran.area) }
{
    source_text::source_text(pool, entry, area)
}
