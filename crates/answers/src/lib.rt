// The answer areas of the C names: the numbers of an answer as `u32`s at the front of a lent area, the rest of which stays as it was.
// `has_room` says whether an area can hold them; the writers ask for that, and that each number fits: so casts are by `as`, and no `try_from`.
#![tactic(auto)]

ghost use Rattle.std.specs.Prelude.{[], ◌∷◌, ◌++◌, ◌≡◌, ◌≤◌, ◌-◌, leb, length, replicate};
ghost use Rattle.annotation.specs.Values.{annotation_values};
ghost use Rattle.base.specs.Lists.{written};
ghost use Rattle.base.specs.Spans.{pair_of};
ghost use Rattle.lookup.specs.Values.{look_up_values, locator_values, size_values};
ghost use Rattle.source_text.specs.Values.{source_text_values};
ghost use Rattle.answers.specs.Words.{Words};
ghost use Rattle.answers.specs.Lengths.{look_up_answer_length, annotation_answer_length, size_answer_length, locator_answer_length};

use annotation::answer::Annotation;
use base::Span;
use base::refusal::Refusal;
use locator::{Locator, code_of, suffix_of, value_of};
use lookup::LookUp;

// How many numbers the answer of each call has, its number first.
pub const LOOK_UP_ANSWER: usize = 4;

pub const ANNOTATION_ANSWER: usize = 6;

pub const SIZE_ANSWER: usize = 2;

pub const LOCATOR_ANSWER: usize = 6;

pub const SOURCE_TEXT_ANSWER: usize = 2;

// Whether `answer` has room for `n` numbers.
pub fn has_room(answer: &[u32], n: usize) -> bool
    ensures { result ≡ leb n (length answer.now) }
{
    n <= answer.len()
}

// Numbers, at the front of `answer`. (A function for its contract: what the writers promise speaks of `written`.)
fn put<const N: usize>(answer: &mut [u32], numbers: [u32; N])
    requires { N ≤ length answer.old }
    ensures { answer.new ≡ written numbers.entry answer.old }
{
    answer[..N].copy_from_slice(&numbers);
}

// A refused answer of `N` numbers, by the number of its refusal: zeros after that, and `last` at the end, which is the note where the answer has one.
// (A number and no `Refusal`, since a caller may have any; the writers give it those of a `Refusal`.)
#[tactic(auto, using(crate::proofs::Refused::refused))]
pub fn write_refused<const N: usize>(number: u8, last: u8, answer: &mut [u32])
    requires { (2 ≤ N) × (N ≤ length answer.old) }
    ensures { answer.new ≡ written (number ∷ (replicate (N - 2) 0 ++ (last ∷ []))) answer.old }
{
    let mut numbers = [0; N];
    numbers[0] = u32::from(number);
    numbers[N - 1] = u32::from(last);
    put(answer, numbers);
}

// Number, close, item count, note. (A writer for each answer and no trait: what an accepted answer gives is a row of its own, and an impl would say
// the row and its numbers once more.)
#[tactic(auto, unfolding(lookup::specs::Values::look_up_values, crate::specs::Words::Words))]
pub fn write_look_up(a: LookUp, answer: &mut [u32])
    requires { (look_up_answer_length ≤ length answer.old) × Words (look_up_values a) }
    ensures { answer.new ≡ written (look_up_values a) answer.old }
{
    match a.group {
        Ok(group) => put(
            answer,
            [0, group.close as u32, group.count as u32, u32::from(a.note)],
        ),
        Err(refusal) => write_refused::<LOOK_UP_ANSWER>(u8::from(refusal), a.note, answer),
    }
}

// Number, groups, items, sources, label bytes, note.
#[tactic(auto, unfolding(annotation::specs::Values::annotation_values, crate::specs::Words::Words))]
pub fn write_annotation(a: Annotation, answer: &mut [u32])
    requires { (annotation_answer_length ≤ length answer.old) × Words (annotation_values a) }
    ensures { answer.new ≡ written (annotation_values a) answer.old }
{
    match a.counts {
        Ok(counts) => put(
            answer,
            [
                0,
                counts.groups as u32,
                counts.items as u32,
                counts.sources as u32,
                counts.label_bytes as u32,
                u32::from(a.note),
            ],
        ),
        Err(refusal) => write_refused::<ANNOTATION_ANSWER>(u8::from(refusal), a.note, answer),
    }
}

// Number, and what the size call or the source text call counts.
#[tactic(auto, unfolding(lookup::specs::Values::size_values, source_text::specs::Values::source_text_values, crate::specs::Words::Words))]
pub fn write_count(a: Result<usize, Refusal>, answer: &mut [u32])
    requires { (size_answer_length ≤ length answer.old) × Words (size_values a) }
    ensures size { answer.new ≡ written (size_values a) answer.old }
    ensures source_text { answer.new ≡ written (source_text_values a) answer.old }
{
    match a {
        Ok(count) => put(answer, [0, count as u32]),
        Err(refusal) => write_refused::<SIZE_ANSWER>(u8::from(refusal), 0, answer),
    }
}

// The accepted answer of a locator: label code, value pair, suffix pair. (A code and no `Term`, since a caller may have any; `write_locator` gives
// it that of a `Locator`.)
#[tactic(auto, unfolding(crate::specs::Words::Words))]
pub fn write_located(code: u16, value: Span, suffix: Span, answer: &mut [u32])
    requires { (locator_answer_length ≤ length answer.old) × Words (pair_of value ++ pair_of suffix) }
    ensures { answer.new ≡ written (0 ∷ code ∷ (pair_of value ++ pair_of suffix)) answer.old }
{
    put(
        answer,
        [
            0,
            u32::from(code),
            value.at as u32,
            value.len as u32,
            suffix.at as u32,
            suffix.len as u32,
        ],
    )
}

// Number, label code, value pair, suffix pair.
#[tactic(auto, unfolding(lookup::specs::Values::locator_values, crate::specs::Words::Words))]
pub fn write_locator(a: Result<Locator, Refusal>, answer: &mut [u32])
    requires { (locator_answer_length ≤ length answer.old) × Words (locator_values a) }
    ensures { answer.new ≡ written (locator_values a) answer.old }
{
    match a {
        Ok(locator) => {
            let code = code_of(locator);
            write_located(code, value_of(locator), suffix_of(locator), answer)
        }
        Err(refusal) => write_refused::<LOCATOR_ANSWER>(u8::from(refusal), 0, answer),
    }
}
