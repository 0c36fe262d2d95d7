// An annotation from the build of the index on: the rest of the sweep,
// and the answer of the whole call.
ghost use Rattle.annotation.specs.Halves.{CanFinish, Finished};

use crate::answer::{Annotation, refuse_ten};
use crate::preparation::Begun;
use base::refusal::Refusal;
use lookup::note_after;
use resolve::Indexed;
use sweep::sweep;

// An annotation from the build on. 10 comes only after the whole sweep. (The four areas stay parameters of their own, and no struct: a clause
// would name what they hold at the end as `areas.exit.1.1.0.now`, and each call would have to say that it keeps all four references.)
#[tactic(auto, using(crate::proofs::FinishLaws::finish_laws))]
pub fn finish<'a>(
    indexed: Indexed<'a>,
    prepared: Result<Begun<'a>, Refusal>,
    items: &mut [u16],
    groups: &mut [u16],
    references: &mut [u16],
    labels: &mut [u8],
) -> Annotation
    requires { CanFinish indexed.text.now indexed.note prepared indexed.index.now items.old groups.old }
    ensures { Finished indexed.entry.text.now indexed.entry.note prepared.entry indexed.entry.index.now items.old groups.old references.old
        labels.old result items.new groups.new references.new labels.new }
{
    // A `match` and no `?`: the note is an answer beside the `Result`, also where that is a refusal. An inner function for `?` would have these
    // six parameters and both clauses again.
    let begun = match prepared {
        Ok(begun) => begun,
        Err(refusal) => return Annotation {
            counts: Err(refusal),
            note: indexed.note,
        },
    };
    let note = note_after(begun.swept.wants, indexed.note);
    let swept = sweep(Indexed { note, ..indexed }, begun.swept, items, groups);
    if swept.fits {
        let begun = Begun { swept, ..begun };
        let counts = begun.number_and_order(indexed.text, items, groups, references, labels);
        return Annotation { counts, note };
    }
    let counts = refuse_ten(items, groups, references, labels);
    Annotation { counts, note }
}
