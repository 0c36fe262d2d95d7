// A numbering with a flag for whether its labels fit, as a caller may have it who goes on after they do not: one group more as
// `numbers::number_group` numbers it, which ends there with None. The library itself ends there.
ghost use Rattle.std.specs.Prelude.{◌≡◌, ◌<◌, ◌≤◌, false};
ghost use Rattle.definition.specs.Lines.{LinesBelow};
ghost use Rattle.numbering.specs.Numbers.{number_group};
ghost use Rattle.numbering.specs.Progress.{room_of};
ghost use Rattle.numbering.specs.Wide.{WideAdvances, WideLabelled};
ghost use Rattle.records.specs.Bounds.{record_bound, half_source_bound};

use crate::{Numbering, numbers};
use pool::Pool;

// Whether the labels fit so far, and the counts of sources and of label bytes. (A flag and no Option: one that does not fit keeps its counts.)
#[derive(Clone, Copy)]
pub struct WideNumbering {
    pub fits: bool,
    pub sources: usize,
    pub label_bytes: usize,
}

// Group record `g` as `numbers::number_group` numbers it; where the labels did not fit before, everything stays as it was.
pub fn number_group<'a>(
    text: &'a [u8],
    mode: u8,
    pool: Pool<'a>,
    n: usize,
    lines: usize,
    m: usize,
    g: usize,
    s: WideNumbering,
    items: &mut [u16],
    groups: &mut [u16],
    labels: &mut [u8],
) -> WideNumbering
    requires { (n < record_bound) × (g < record_bound) × (s.sources < half_source_bound) × (s.label_bytes ≤ room_of labels.old)
        × LinesBelow text.now groups.old items.old n lines
        × WideLabelled text.now mode pool.bytes.now n m s items.old groups.old labels.old }
    ensures advances { WideAdvances 65535 (λ t. number_group text.now mode pool.entry.bytes.now n t g)
        s result items.old groups.old labels.old items.new groups.new labels.new }
    ensures lines { LinesBelow text.now groups.new items.new n lines }
    ensures labelled { WideLabelled text.now mode pool.entry.bytes.now n m result items.new groups.new labels.new }
    ensures full { s.fits ≡ false → (result ≡ s) × (items.new ≡ items.old) × (groups.new ≡ groups.old) × (labels.new ≡ labels.old) }
{
    if !s.fits {
        return s;
    }
    let counts = Numbering {
        sources: s.sources,
        label_bytes: s.label_bytes,
    };
    let next = numbers::number_group(
        text, mode, pool, n, lines, m, g, counts, items, groups, labels,
    );
    match next {
        Some(next) => WideNumbering {
            fits: true,
            sources: next.sources,
            label_bytes: next.label_bytes,
        },
        None => WideNumbering { fits: false, ..s },
    }
}
