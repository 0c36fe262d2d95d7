// The public calls as C and Rust see them, under the names of include/citations.h; the crate `exports_c` exports them.
// `answer` gets the number (0 accepted), then the values in the paper's order; a call with a shorter one does nothing.
#![tactic(auto)]

ghost use Rattle.std.specs.Prelude.{◌≡◌};
ghost use Rattle.annotation.specs.Content.{areas};
ghost use Rattle.exports.specs.Areas.{look_up_areas, after_look_up, annotate_areas, after_annotate, after_size, after_locator, source_areas, after_source_text};

use answers::{
    ANNOTATION_ANSWER, LOCATOR_ANSWER, LOOK_UP_ANSWER, SIZE_ANSWER, SOURCE_TEXT_ANSWER, has_room,
    write_annotation, write_count, write_locator, write_look_up,
};
use index::Bracket;

// calls::look_up; answer: number, close, item count, note. A slice is a pointer and a length in elements. `mode` and `note` are numbers and no
// enums in each call: C gives any byte, `Mode::try_from` refuses what is no mode, and each note but 1 says that the index is not built. The test for
// room stays in each of the five calls: a function that takes the call as a closure would be no plainer, since its contract would have to say of
// every closure what it leaves in up to seven areas.
#[tactic(auto, using(crate::proofs::Laws::room, crate::proofs::Laws::look_up_fit), unfolding(crate::specs::Areas::after_look_up, crate::specs::Areas::look_up_done))]
pub fn citations_look_up(
    text: &[u8],
    at: usize,
    note: u8,
    index: &mut [u16],
    records: &mut [Bracket],
    items: &mut [u16],
    answer: &mut [u32],
)
    ensures { let after = after_look_up text.now at note
        (look_up_areas index.old records.old items.old answer.old) in
        (index.new ≡ after.index)
        × (records.new ≡ after.records)
        × (items.new ≡ after.items)
        × (answer.new ≡ after.answer) }
{
    if has_room(answer, LOOK_UP_ANSWER) {
        let a = calls::look_up(text, at, note, index, records, items);
        write_look_up(a, answer);
    }
}

// calls::annotate; answer: number, groups, items, sources, label bytes, note.
#[tactic(auto, using(crate::proofs::Laws::room, crate::proofs::Laws::annotate_fit), unfolding(crate::specs::Areas::after_annotate, crate::specs::Areas::annotate_done))]
pub fn citations_annotate<'a>(
    text: &'a [u8],
    mode: u8,
    pool: &'a [u8],
    note: u8,
    index: &mut [u16],
    records: &mut [Bracket],
    items: &mut [u16],
    groups: &mut [u16],
    references: &mut [u16],
    labels: &mut [u8],
    answer: &mut [u32],
)
    ensures { let given = areas items.old groups.old references.old labels.old in
        let after = after_annotate text.now mode pool.now note
        (annotate_areas index.old records.old given answer.old) in
        (index.new ≡ after.index)
        × (records.new ≡ after.records)
        × (items.new ≡ after.areas.items)
        × (groups.new ≡ after.areas.groups)
        × (references.new ≡ after.areas.references)
        × (labels.new ≡ after.areas.labels)
        × (answer.new ≡ after.answer) }
{
    if has_room(answer, ANNOTATION_ANSWER) {
        let a = calls::annotate(
            text, mode, pool, note, index, records, items, groups, references, labels,
        );
        write_annotation(a, answer);
    }
}

// calls::size; answer: number, records.
#[tactic(auto, using(crate::proofs::Laws::room, crate::proofs::Laws::size_fit), unfolding(crate::specs::Areas::after_size))]
pub fn citations_size(text: &[u8], answer: &mut [u32])
    ensures { answer.new ≡ after_size text.now answer.old }
{
    if has_room(answer, SIZE_ANSWER) {
        write_count(calls::size(text), answer);
    }
}

// calls::locator; answer: number, label code, value pair, suffix pair.
#[tactic(auto, using(crate::proofs::Laws::room, crate::proofs::Laws::locator_fit), unfolding(crate::specs::Areas::after_locator))]
pub fn citations_locator(text: &[u8], answer: &mut [u32])
    ensures { answer.new ≡ after_locator text.now answer.old }
{
    if has_room(answer, LOCATOR_ANSWER) {
        write_locator(calls::locator(text), answer);
    }
}

// calls::source_text; answer: number, bytes.
#[tactic(auto, using(crate::proofs::Laws::room, crate::proofs::Laws::source_fit), unfolding(crate::specs::Areas::after_source_text, crate::specs::Areas::source_done))]
pub fn citations_source_text(pool: &[u8], entry: usize, area: &mut [u8], answer: &mut [u32])
    ensures { let after = after_source_text pool.now entry (source_areas area.old answer.old) in
        (area.new ≡ after.area) × (answer.new ≡ after.answer) }
{
    if has_room(answer, SOURCE_TEXT_ANSWER) {
        write_count(calls::source_text(pool, entry, area), answer);
    }
}

// CITATIONS_VERSION of include/citations.h. What is compiled against that header refers to this name, which `exports_c` exports, so it links with
// no archive of another version. The number stands in the name too, and both are raised together.
pub fn citations_version_2() -> u32
    ensures { result ≡ 2 }
{
    2
}
