// An annotation after the whole sweep: numbers, uses, labels and references,
// or 10 where the labels or the references have no room.
ghost use Rattle.std.specs.Prelude.{◌≤◌};
ghost use Rattle.base.specs.Modes.{mode_number};
ghost use Rattle.numbering.specs.Numbers.{number_all};
ghost use Rattle.numbering.specs.Progress.{Unnumbered};
ghost use Rattle.annotation.specs.Ordering.{Orderable, Ordered};

use crate::answer::{Counts, refuse_ten};
use crate::preparation::Begun;
use base::mode::Mode;
use base::refusal::Refusal;
use definition::lines::lines_end;
use numbering::Setting;
use order::Sources;
use pool::Pool;
use sweep::group_records::SweepState;

impl<'a> Begun<'a> {
    // Numbers the groups of the finished sweep and orders the references: the counts, or 10 where the labels or the references have no room.
    #[tactic(auto, using(crate::proofs::OrderLaws::order_laws))]
    pub fn number_and_order(
        &self,
        text: &'a [u8],
        items: &mut [u16],
        groups: &mut [u16],
        references: &mut [u16],
        labels: &mut [u8],
    ) -> Result<Counts, Refusal>
        requires { let swept = self.now.swept in
            let numbered = number_all text.now (mode_number self.now.mode) self.now.pool.bytes.now swept.groups items.old groups.old in
            (swept.groups ≤ 32768) × (swept.items ≤ 65535) × Unnumbered swept.items items.old
            × Orderable text.now self.now.pool.bytes.now swept.groups swept.items numbered }
        ensures { Ordered text.now (mode_number self.now.mode) self.now.pool.bytes.now self.now.swept.groups self.now.swept.items items.old
            groups.old references.old labels.old result items.new groups.new references.new labels.new }
    {
        let Begun { mode, pool, swept } = *self;
        let (n, m) = (swept.groups, swept.items);
        let setting = Setting {
            text,
            pool,
            mode,
            n,
            m,
            lines: lines_end(text, groups, items, n),
        };
        let Some(numbers) = setting.number_groups(items, groups, labels) else {
            return refuse_ten(items, groups, references, labels); // the labels have no room
        };
        let sources = numbers.sources;
        if references.len() < sources {
            return refuse_ten(items, groups, references, labels);
        }
        let ordered = Sources {
            definitions: setting.definitions(groups, items),
            m,
            sources,
        };
        ordered.order(mode, references);
        Ok(Counts {
            groups: n,
            items: m,
            sources,
            label_bytes: numbers.label_bytes,
        })
    }
}

// What `Begun::number_and_order` does, at any mode number: each above 1 counts as 1. The library itself calls the method, whose `Begun` has
// a `Mode`.
pub fn number_and_order<'a>(
    text: &'a [u8],
    mode: u8,
    pool: Pool<'a>,
    swept: SweepState,
    items: &mut [u16],
    groups: &mut [u16],
    references: &mut [u16],
    labels: &mut [u8],
) -> Result<Counts, Refusal>
    requires { let numbered = number_all text.now mode pool.bytes.now swept.groups items.old groups.old in
        (swept.groups ≤ 32768) × (swept.items ≤ 65535) × Unnumbered swept.items items.old
        × Orderable text.now pool.bytes.now swept.groups swept.items numbered }
    ensures { Ordered text.now mode pool.entry.bytes.now swept.groups swept.items items.old
        groups.old references.old labels.old result items.new groups.new references.new labels.new }
{
    let mode = Mode::clamped(mode);
    Begun { mode, pool, swept }.number_and_order(text, items, groups, references, labels)
}
