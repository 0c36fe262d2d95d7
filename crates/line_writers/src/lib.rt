// The lines of the listing: the writers add them to a text in an area (`Text` of source_parts).
// `put_listing` writes a whole listing, by the counts and the records of an answer.
#![tactic(auto)]

ghost use Rattle.std.specs.Prelude.{[], ◌∷◌, ◌++◌, ◌*◌, ◌≤◌, ◌<◌, drop, length, IfOk};
ghost use Rattle.decimal.specs.Decimal.{decimal};
ghost use Rattle.base.specs.Areas.{Wrote};
ghost use Rattle.base.specs.Refusals.{number_of};
ghost use Rattle.line_writers.specs.Lines.{group_part, item_part, item_line, lines_of, group_lines, count_line, refused_line, answer_lines};
ghost use Rattle.line_writers.specs.Writes.{answer_by};
ghost use Rattle.records.specs.Widths.{group_width, item_width};
ghost use Rattle.records.specs.Bounds.{record_bound};
ghost use Rattle.source_parts.specs.Parts.{Adds};

use annotation::answer::Counts;
use base::refusal::Refusal;
use records::{
    GROUP_COUNT, GROUP_FIRST, GROUP_LENGTH, GROUP_PLACE, GROUP_STANDING, GROUP_WIDTH, ITEM_CODE,
    ITEM_NUMBER, ITEM_WIDTH, field, key_in,
};
use source_parts::Text;

// A text, and the group and item records of its answer. (No `Definitions`, which has these three too: a listing has no pool and looks for no line.)
#[derive(Clone, Copy)]
pub struct Answer<'a> {
    pub text: &'a [u8],
    pub groups: &'a [u16],
    pub items: &'a [u16],
}

// A number in decimal, and the byte `end` after it. (No `Display`: `write!` promises the bytes only where it returns `Ok`, and no writer here can fail.)
#[tactic(auto, using(decimal::proofs::Laws::decimal_short))]
fn put_number(out: &mut Text<'_>, n: usize, end: u8)
    ensures { Adds (decimal n ++ (end ∷ [])) out.old out.new }
{
    // 20 digits, which no `u64` exceeds. (`as` widens: `u64` has no `From<usize>`.)
    let mut digits = [0u8; 20];
    decimal::write_decimal(&mut digits, n as u64);
    out.push(&digits[..decimal::digit_count(n as u64)]);
    out.push(&[end]);
}

// What a line says of its group. (That `g` is below `record_bound` stays a clause, since `records::field` asks for it: with a `u32` in its place each call
// would cast the counter of a loop.)
fn put_group_part(out: &mut Text<'_>, groups: &[u16], g: usize)
    requires { g < record_bound }
    ensures { Adds (group_part (drop (group_width * g) groups.now)) out.old out.new }
{
    let offset = field::<GROUP_WIDTH>(groups, g, GROUP_PLACE);
    let length = field::<GROUP_WIDTH>(groups, g, GROUP_LENGTH);
    let standing = field::<GROUP_WIDTH>(groups, g, GROUP_STANDING);
    put_number(out, offset, b' ');
    put_number(out, length, b' ');
    put_number(out, standing, b' ');
}

// What a line says of its item.
fn put_item_part(out: &mut Text<'_>, text: &[u8], items: &[u16], i: usize)
    requires { i < record_bound }
    ensures { Adds (item_part text.now (drop (item_width * i) items.now)) out.old out.new }
{
    let key = key_in(text, items, i);
    let code = field::<ITEM_WIDTH>(items, i, ITEM_CODE);
    let number = field::<ITEM_WIDTH>(items, i, ITEM_NUMBER);
    out.push(key);
    out.push(b" ");
    put_number(out, code, b' ');
    put_number(out, number, b'\n');
}

// The line of item record `i`, in the group of record `g`.
fn put_line(out: &mut Text<'_>, answer: Answer<'_>, g: usize, i: usize)
    requires { (g < record_bound) × (i < record_bound) }
    ensures { let a = answer.entry in
        Adds (item_line a.text.now (drop (group_width * g) a.groups.now) (drop (item_width * i) a.items.now)) out.old out.new }
{
    put_group_part(out, answer.groups, g);
    put_item_part(out, answer.text, answer.items, i);
}

// The lines of the group of record `g`.
#[tactic(auto, using(crate::proofs::Lines::lines_laws))]
fn put_lines(out: &mut Text<'_>, answer: Answer<'_>, g: usize)
    requires { g < record_bound }
    ensures { let a = answer.entry in
        Adds (lines_of a.text.now (drop (group_width * g) a.groups.now) a.items.now) out.old out.new }
{
    let first = field::<GROUP_WIDTH>(answer.groups, g, GROUP_FIRST);
    let count = field::<GROUP_WIDTH>(answer.groups, g, GROUP_COUNT);
    for i in first..first + count {
        put_line(out, answer, g, i);
    }
}

// The lines of the first `n` groups.
#[tactic(auto, using(crate::proofs::Lines::groups_laws))]
fn put_groups(out: &mut Text<'_>, answer: Answer<'_>, n: usize)
    requires { n ≤ 65535 }
    ensures { let a = answer.entry in Adds (group_lines n a.text.now a.groups.now a.items.now) out.old out.new }
{
    for g in 0..n {
        put_lines(out, answer, g);
    }
}

// A word, a number in decimal, and the byte `end`.
pub fn put_count(out: &mut Text<'_>, word: &[u8], n: usize, end: u8)
    ensures { Adds (word.now ++ (decimal n ++ (end ∷ []))) out.old out.new }
{
    out.push(word);
    put_number(out, n, end);
}

// The line of the counts.
fn put_counts(out: &mut Text<'_>, c: Counts)
    ensures { Adds (count_line (answer_by (Ok c) [] [])) out.old out.new }
{
    put_count(out, b"groups ", c.groups, b' ');
    put_count(out, b"items ", c.items, b' ');
    put_count(out, b"sources ", c.sources, b'\n');
}

// The line of a refusal by its number, at the front of `area`. How many bytes. (A number and no `Refusal`, for callers that have a
// number alone; the listing itself calls `put_refusal`.)
pub fn put_refused(number: usize, area: &mut [u8]) -> usize
    requires { length (refused_line number) ≤ length area.old }
    ensures { Wrote (refused_line number) area.old area.new result }
{
    let mut out = Text { area, len: 0 };
    put_count(&mut out, b"refused ", number, b'\n');
    out.len
}

// The line of a refusal, at the front of `area`. How many bytes.
pub fn put_refusal(refusal: Refusal, area: &mut [u8]) -> usize
    requires { length (refused_line (number_of refusal)) ≤ length area.old }
    ensures { Wrote (refused_line (number_of refusal)) area.old area.new result }
{
    put_refused(usize::from(u8::from(refusal)), area)
}

// The listing of an answer and its records, at the front of `area`. How many bytes.
pub fn put_listing(counts: Result<Counts, Refusal>, answer: Answer<'_>, area: &mut [u8]) -> usize
    requires { IfOk counts (λ c. c.groups ≤ 65535)
        × (length (answer_lines answer.text.now (answer_by counts answer.items.now answer.groups.now)) ≤ length area.old) }
    ensures { let a = answer.entry in Wrote (answer_lines a.text.now (answer_by counts a.items.now a.groups.now)) area.old area.new result }
{
    match counts {
        Ok(counts) => {
            let mut out = Text { area, len: 0 };
            put_counts(&mut out, counts);
            put_groups(&mut out, answer, counts.groups);
            out.len
        }
        Err(refusal) => put_refusal(refusal, area),
    }
}
