// The archive that C and Rust link, under the names of include/citations.h: each call of exports once more, with its clauses, since a crate is
// a library or a static library and never both (the C interface).
#![tactic(auto)]

ghost use Rattle.std.specs.Prelude.{◌≡◌};
ghost use Rattle.annotation.specs.Content.{areas};
ghost use Rattle.exports.specs.Areas.{look_up_areas, after_look_up, annotate_areas, after_annotate, after_size, after_locator, source_areas, after_source_text};

use index::Bracket;

// exports::citations_look_up; answer: number, close, item count, note. A slice is a pointer and a length in elements. `answer` gets the number
// (0 accepted), then the values in the paper's order; each call with a shorter one does nothing. `mode` and `note` are numbers and no enums: C gives
// any byte, `Mode::try_from` refuses what is no mode, and each note but 1 says that the index is not built.
#[unsafe(no_mangle)]
pub extern "C" fn citations_look_up(
    text: &[u8],
    at: usize,
    note: u8,
    index: &mut [u16],
    records: &mut [Bracket],
    items: &mut [u16],
    answer: &mut [u32],
)
    ensures { let after = after_look_up text.now at note
        (look_up_areas index.old records.old items.old answer.old) in
        (index.new ≡ after.index)
        × (records.new ≡ after.records)
        × (items.new ≡ after.items)
        × (answer.new ≡ after.answer) }
{
    exports::citations_look_up(text, at, note, index, records, items, answer);
}

// exports::citations_annotate; answer: number, groups, items, sources, label bytes, note.
#[unsafe(no_mangle)]
pub extern "C" fn citations_annotate<'a>(
    text: &'a [u8],
    mode: u8,
    pool: &'a [u8],
    note: u8,
    index: &mut [u16],
    records: &mut [Bracket],
    items: &mut [u16],
    groups: &mut [u16],
    references: &mut [u16],
    labels: &mut [u8],
    answer: &mut [u32],
)
    ensures { let given = areas items.old groups.old references.old labels.old in
        let after = after_annotate text.now mode pool.now note
        (annotate_areas index.old records.old given answer.old) in
        (index.new ≡ after.index)
        × (records.new ≡ after.records)
        × (items.new ≡ after.areas.items)
        × (groups.new ≡ after.areas.groups)
        × (references.new ≡ after.areas.references)
        × (labels.new ≡ after.areas.labels)
        × (answer.new ≡ after.answer) }
{
    exports::citations_annotate(
        text, mode, pool, note, index, records, items, groups, references, labels, answer,
    );
}

// exports::citations_size; answer: number, records.
#[unsafe(no_mangle)]
pub extern "C" fn citations_size(text: &[u8], answer: &mut [u32])
    ensures { answer.new ≡ after_size text.now answer.old }
{
    exports::citations_size(text, answer);
}

// exports::citations_locator; answer: number, label code, value pair, suffix pair.
#[unsafe(no_mangle)]
pub extern "C" fn citations_locator(text: &[u8], answer: &mut [u32])
    ensures { answer.new ≡ after_locator text.now answer.old }
{
    exports::citations_locator(text, answer);
}

// exports::citations_source_text; answer: number, bytes.
#[unsafe(no_mangle)]
pub extern "C" fn citations_source_text(
    pool: &[u8],
    entry: usize,
    area: &mut [u8],
    answer: &mut [u32],
)
    ensures { let after = after_source_text pool.now entry (source_areas area.old answer.old) in
        (area.new ≡ after.area) × (answer.new ≡ after.answer) }
{
    exports::citations_source_text(pool, entry, area, answer);
}

// CITATIONS_VERSION of include/citations.h. What is compiled against that header refers to this name, so it links with no archive of another
// version. The number stands in the name too, and both are raised together.
#[unsafe(no_mangle)]
pub extern "C" fn citations_version_2() -> u32
    ensures { result ≡ 2 }
{
    exports::citations_version_2()
}
