// The answer of the annotation call.
// The refusal by 10, which fills the four answer areas with zeros.
ghost use Rattle.annotation.specs.Halves.{Zeroed};

use base::refusal::Refusal;

// What an annotation counts.
#[derive(Clone, Copy, PartialEq, Eq)]
pub struct Counts {
    pub groups: usize,
    pub items: usize,
    pub sources: usize,
    pub label_bytes: usize,
}

// The answer of the annotation call; a definition (specs/Values) gives the paper's numbers for each case. `note` is a number:
// C gives any byte, and one that is not 1 comes back as it was where no index is built. (No generic type for this and a look-up's answer: each has
// its own definition of its numbers, and callers read `counts` and `group` by these names.)
#[derive(Clone, Copy)]
pub struct Annotation {
    pub counts: Result<Counts, Refusal>,
    pub note: u8,
}

// The refusal by 10: all four areas are filled with zeros.
pub fn refuse_ten(
    items: &mut [u16],
    groups: &mut [u16],
    references: &mut [u16],
    labels: &mut [u8],
) -> Result<Counts, Refusal>
    ensures { Zeroed items.old groups.old references.old labels.old result items.new groups.new
        references.new labels.new }
{
    items.fill(0);
    groups.fill(0);
    references.fill(0);
    labels.fill(0);
    Err(Refusal::NoRoom)
}
