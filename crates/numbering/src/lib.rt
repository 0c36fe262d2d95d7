// Numbers, uses and labels,
// over item and group records.
#![tactic(auto)]

pub mod numbers;
pub mod wide;

ghost use Rattle.std.specs.Prelude.{◌≤◌, ◌<◌};
ghost use Rattle.definition.specs.Lines.{LinesBelow};
ghost use Rattle.records.specs.Bounds.{record_bound};
ghost use Rattle.numbering.specs.Numbers.{number_all};
ghost use Rattle.numbering.specs.Progress.{room_of, Holds, Unnumbered};

use base::mode::Mode;
use pool::Pool;

// How far the numbering is, while the labels fit: the counts of sources and of label bytes.
#[derive(Clone, Copy)]
pub struct Numbering {
    pub sources: usize,
    pub label_bytes: usize,
}

// What stays the same while the groups are numbered: the text, the pool, the mode, the counts of groups and items, and the group record
// below which the definition lines lie.
#[derive(Clone, Copy)]
pub struct Setting<'a> {
    pub text: &'a [u8],
    pub pool: Pool<'a>,
    pub mode: Mode,
    pub n: usize,
    pub m: usize,
    pub lines: usize,
    pub ghost few: { n < record_bound },
}

impl Setting<'_> {
    ghost use Rattle.base.specs.Modes.{mode_number};
    ghost use Rattle.numbering.specs.Numbers.{number_all};
    ghost use Rattle.numbering.specs.Progress.{room_of, Holds, Unnumbered};

    // Numbers, uses and labels of all groups, into their records and into `labels`; nothing where the labels do not fit. Then nothing is
    // said of the areas, but for their definition lines: the caller is to fill them with zeros.
    pub fn number_groups(
        &self,
        items: &mut [u16],
        groups: &mut [u16],
        labels: &mut [u8],
    ) -> Option<Numbering>
        requires { (self.now.n ≤ 65535) × Unnumbered self.now.m items.old × LinesBelow self.now.text.now groups.old items.old self.now.n self.now.lines }
        ensures holds { Holds
            (number_all self.now.text.now (mode_number self.now.mode) self.now.pool.bytes.now self.now.n items.old groups.old)
            (room_of labels.old) labels.old result items.new groups.new labels.new }
        ensures lines { LinesBelow self.now.text.now groups.new items.new self.now.n self.now.lines }
    {
        let mut s = Numbering {
            sources: 0,
            label_bytes: 0,
        };
        for g in 0..self.n {
            s = self.number_group(g, s, items, groups, labels)?;
        }
        Some(s)
    }
}

// The groups as `Setting::number_groups` numbers them, at any mode number: each above 1 counts as 1. The library itself calls the method,
// whose setting has a `Mode`.
pub fn number_groups<'a>(
    text: &'a [u8],
    mode: u8,
    pool: Pool<'a>,
    n: usize,
    lines: usize,
    m: usize,
    items: &mut [u16],
    groups: &mut [u16],
    labels: &mut [u8],
) -> Option<Numbering>
    requires { (n ≤ 65535) × Unnumbered m items.old × LinesBelow text.now groups.old items.old n lines }
    ensures holds { Holds (number_all text.now mode pool.entry.bytes.now n items.old groups.old)
        (room_of labels.old) labels.old result items.new groups.new labels.new }
    ensures lines { LinesBelow text.now groups.new items.new n lines }
{
    let mode = Mode::clamped(mode);
    let setting = Setting {
        text,
        pool,
        mode,
        n,
        m,
        lines,
    };
    setting.number_groups(items, groups, labels)
}
