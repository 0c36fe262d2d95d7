// The two public calls that are lent bracket records, with the records in a local array, as many as any text needs.
// What they promise is what `calls` promises; the records end with the call, as the run leaves them.
#![tactic(auto)]

ghost use Rattle.std.specs.Prelude.{replicate};
ghost use Rattle.annotation.specs.Call.{annotate_run};
ghost use Rattle.annotation.specs.Content.{areas};
ghost use Rattle.histories.specs.Promises.{LookUpPromise, AnnotatePromise};
ghost use Rattle.index.specs.Built.{blank};
ghost use Rattle.lookup.specs.LookUps.{look_up_run};

use annotation::answer::Annotation;
use index::Bracket;
use lookup::LookUp;

// A bracket record before any call. (`Bracket::default()` in its place was tried, and the proof didn't close.)
const BLANK: Bracket = Bracket {
    place: 0,
    seen: 0,
    good: 0,
    bad: 0,
};

// `calls::look_up`. (`note`, and `mode` below, are numbers and no enums, as in `calls`: C gives any byte, and `Mode::try_from` refuses what is no mode.)
pub fn look_up(text: &[u8], at: usize, note: u8, index: &mut [u16], items: &mut [u16]) -> LookUp
    ensures { let records = replicate 65535 blank in
        let ran = look_up_run text.now at note index.old records items.old in
        LookUpPromise text.now at note index.old records items.old
        result index.new ran.records items.new }
{
    let mut records = [BLANK; 65535];
    calls::look_up(text, at, note, index, &mut records, items)
}

// `calls::annotate`.
pub fn annotate<'a>(
    text: &'a [u8],
    mode: u8,
    pool: &'a [u8],
    note: u8,
    index: &mut [u16],
    items: &mut [u16],
    groups: &mut [u16],
    references: &mut [u16],
    labels: &mut [u8],
) -> Annotation
    ensures { let given = areas items.old groups.old references.old labels.old in
        let left = areas items.new groups.new references.new labels.new in
        let records = replicate 65535 blank in
        let ran = annotate_run text.now mode pool.now note index.old records given in
        AnnotatePromise text.now mode pool.now note index.old records given
        result index.new ran.records left }
{
    let mut records = [BLANK; 65535];
    calls::annotate(
        text,
        mode,
        pool,
        note,
        index,
        &mut records,
        items,
        groups,
        references,
        labels,
    )
}
