// Numbers, uses and labels, written into the records and the label bytes, group by group.
// `as` narrows a number, since the check proves that it fits; `try_from` would answer a refusal that cannot come.
// `k < record_bound` is a clause: with a `u32` in place of `k` each call would cast the counter of a loop. The counts `s` and the areas are
// parameters of their own, and no struct with the facts that tie them: groups are lent only for reading while items are written.
ghost use Rattle.std.specs.Prelude.{◌≡◌, ◌*◌, ◌<◌, ◌≤◌, length, IfSome};
ghost use Rattle.base.specs.Modes.{mode_number};
ghost use Rattle.label.specs.Areas.{fitted, fitted_at};
ghost use Rattle.definition.specs.Lines.{LinesBelow};
ghost use Rattle.numbering.specs.Numbers.{key_defined, keys_defined, record_label, cite_in, cite_from, number_group};
ghost use Rattle.numbering.specs.Progress.{room_of, Advances, Alike, Labelled};
ghost use Rattle.records.specs.Bounds.{record_bound, half_source_bound, source_bound};
ghost use Rattle.records.specs.Widths.{item_width};

use crate::{Numbering, Setting};
use base::mode::Mode;
use definition::Definitions;
use pool::Pool;
use records::{
    GROUP_COUNT, GROUP_FIRST, GROUP_STANDING, GROUP_WIDTH, ITEM_LABEL, ITEM_LABEL_LENGTH,
    ITEM_WIDTH, field, key_in, put, suppressed_in,
};
use standing::Standing;

// Whether the key of item record `k` is defined.
#[tactic(auto, using(crate::proofs::GroupLaws::defined_laws))]
fn is_defined(definitions: &Definitions, k: usize) -> bool
    requires { k < record_bound }
    ensures { result ≡ key_defined definitions.now.text.now definitions.now.pool.bytes.now definitions.now.groups.now definitions.now.items.now
        definitions.now.n k }
{
    let key = key_in(definitions.text, definitions.items, k);
    definitions.find(key).is_some()
}

// Whether the keys of the `count` item records from `first` on are all defined.
fn all_defined(definitions: &Definitions, first: usize, count: usize) -> bool
    requires { (first < 65536) × (count < 65536) }
    ensures { result ≡ keys_defined definitions.now.text.now definitions.now.pool.bytes.now definitions.now.groups.now
        definitions.now.items.now definitions.now.n count first }
{
    (first..first + count).all(|k| is_defined(definitions, k))
}

// The label of item record `k` with the number `number` at the front of `out`, where it fits. Its length.
#[tactic(auto, using(crate::proofs::LabelLaws::label_laws))]
fn label_in(definitions: &Definitions, mode: Mode, k: usize, number: u16, out: &mut [u8]) -> usize
    requires { k < record_bound }
    ensures value { result ≡ length (record_label definitions.now.text.now (mode_number mode) definitions.now.pool.bytes.now
        definitions.now.groups.now definitions.now.items.now definitions.now.n k number) }
    ensures area { out.new ≡ fitted
        (record_label definitions.now.text.now (mode_number mode) definitions.now.pool.bytes.now definitions.now.groups.now
        definitions.now.items.now definitions.now.n k number)
        out.old }
{
    match mode {
        Mode::Number => label::write_number(number, out),
        Mode::AuthorYear => {
            let key = key_in(definitions.text, definitions.items, k);
            let given = definitions.given_by(definitions.find(key));
            let suppressed = suppressed_in(definitions.items, k);
            label::write_author_year(suppressed, number, given, out)
        }
    }
}

// An item record before `k` that has the label of record `k` with the number `number`, if one is known and looked for. In the mode `Number`,
// whose labels are written as fast as they are copied, and for the first use of a source none is looked for.
#[tactic(auto, using(crate::proofs::LabelLaws::before_laws))]
fn labelled_before(
    text: &[u8],
    mode: Mode,
    items: &[u16],
    sources: usize,
    k: usize,
    number: usize,
) -> Option<usize>
    requires { k < record_bound }
    ensures { IfSome result (λ j. (j < k) × Alike text.now items.now k number j) }
{
    if mode == Mode::Number || number == 0 || sources < number {
        return None;
    }
    uses::last_alike(text, items, k, number)
}

// The label of item record `k` with the number `number`, after the label bytes so far, where it fits: that of an earlier record, copied, or
// one that is written anew. Its length.
#[tactic(auto, using(crate::proofs::LabelLaws::copy_laws))]
fn write_label_of(
    definitions: &Definitions,
    mode: Mode,
    m: usize,
    k: usize,
    number: u16,
    s: Numbering,
    labels: &mut [u8],
) -> usize
    requires { (k < record_bound) × (s.label_bytes ≤ length labels.old) × Labelled definitions.now.text.now (mode_number mode)
        definitions.now.pool.bytes.now definitions.now.n m s definitions.now.items.now definitions.now.groups.now labels.old }
    ensures value { result ≡ length (record_label definitions.now.text.now (mode_number mode) definitions.now.pool.bytes.now
        definitions.now.groups.now definitions.now.items.now definitions.now.n k number) }
    ensures area { labels.new ≡ fitted_at
        (record_label definitions.now.text.now (mode_number mode) definitions.now.pool.bytes.now definitions.now.groups.now
        definitions.now.items.now definitions.now.n k number)
        s.label_bytes labels.old }
{
    let at = s.label_bytes;
    let items = definitions.items;
    match labelled_before(
        definitions.text,
        mode,
        items,
        s.sources,
        k,
        usize::from(number),
    ) {
        Some(j) if j < m => {
            let from = field::<ITEM_WIDTH>(items, j, ITEM_LABEL);
            let len = field::<ITEM_WIDTH>(items, j, ITEM_LABEL_LENGTH);
            label::copy_label(from, len, at, labels);
            len
        }
        _ => label_in(definitions, mode, k, number, &mut labels[at..]),
    }
}

impl<'a> Setting<'a> {
    // Where keys are defined, by the records as they are so far.
    pub fn definitions(self, groups: &'a [u16], items: &'a [u16]) -> Definitions<'a>
        requires { LinesBelow self.text.now groups.now items.now self.n self.lines }
        ensures { (result.text ≡ self.entry.text) × (result.pool ≡ self.entry.pool) × (result.groups.now ≡ groups.now) × (result.items.now ≡ items.now)
            × (result.n ≡ self.entry.n) × (result.lines ≡ self.entry.lines) }
    {
        Definitions {
            text: self.text,
            pool: self.pool,
            groups,
            items,
            n: self.n,
            lines: self.lines,
        }
    }

    // Item record `k` with its number, its use and its label; nothing where the label does not fit, and then the areas may hold anything.
    fn cite(
        &self,
        k: usize,
        s: Numbering,
        items: &mut [u16],
        groups: &[u16],
        labels: &mut [u8],
    ) -> Option<Numbering>
        requires { (k < record_bound) × (s.sources < source_bound) × (s.label_bytes ≤ room_of labels.old)
            × LinesBelow self.now.text.now groups.now items.old self.now.n self.now.lines
            × Labelled self.now.text.now (mode_number self.now.mode) self.now.pool.bytes.now self.now.n self.now.m s items.old groups.now labels.old }
        ensures advances { Advances 1 (λ t. cite_in self.now.text.now (mode_number self.now.mode) self.now.pool.bytes.now self.now.n t k)
            s result items.old groups.now labels.old items.new groups.now labels.new }
        ensures lines { LinesBelow self.now.text.now groups.now items.new self.now.n self.now.lines }
        ensures room { item_width * self.now.m ≤ length items.new }
        ensures labelled { IfSome result (λ r. Labelled self.now.text.now (mode_number self.now.mode) self.now.pool.bytes.now self.now.n
            self.now.m r items.new groups.now labels.new) }
    {
        let at = s.label_bytes;
        let left = labels.len().min(65535) - at;
        let c = uses::count_in(self.text, items, !self.pool.is_empty(), s.sources, k);
        let definitions = self.definitions(groups, items);
        let len = write_label_of(&definitions, self.mode, self.m, k, c.number, s, labels);
        if left < len {
            return None;
        }
        uses::set_last(items, k, c.number, c.use_index, at as u16, len as u16);
        Some(Numbering {
            sources: c.sources,
            label_bytes: at + len,
        })
    }

    // The `count` item records from `first` on with their numbers, uses and labels, as `cite` gives each its own.
    fn cite_from(
        &self,
        first: usize,
        count: usize,
        s: Numbering,
        items: &mut [u16],
        groups: &[u16],
        labels: &mut [u8],
    ) -> Option<Numbering>
        requires { (first < 65536) × (count < 65536) × (s.sources < half_source_bound) × (s.label_bytes ≤ room_of labels.old)
            × LinesBelow self.now.text.now groups.now items.old self.now.n self.now.lines
            × Labelled self.now.text.now (mode_number self.now.mode) self.now.pool.bytes.now self.now.n self.now.m s items.old groups.now labels.old }
        ensures advances { Advances count (λ t. cite_from self.now.text.now (mode_number self.now.mode) self.now.pool.bytes.now self.now.n count t first)
            s result items.old groups.now labels.old items.new groups.now labels.new }
        ensures lines { LinesBelow self.now.text.now groups.now items.new self.now.n self.now.lines }
        ensures room { item_width * self.now.m ≤ length items.new }
        ensures labelled { IfSome result (λ r. Labelled self.now.text.now (mode_number self.now.mode) self.now.pool.bytes.now self.now.n
            self.now.m r items.new groups.now labels.new) }
    {
        let mut so_far = s;
        for k in first..first + count {
            so_far = self.cite(k, so_far, items, groups, labels)?;
        }
        Some(so_far)
    }

    // Group record `g`: one in a definition line, and one with a key that is not defined, gets no number, use or label. Nothing where the
    // labels do not fit.
    pub fn number_group(
        &self,
        g: usize,
        s: Numbering,
        items: &mut [u16],
        groups: &mut [u16],
        labels: &mut [u8],
    ) -> Option<Numbering>
        requires { (g < record_bound) × (s.sources < half_source_bound) × (s.label_bytes ≤ room_of labels.old)
            × LinesBelow self.now.text.now groups.old items.old self.now.n self.now.lines
            × Labelled self.now.text.now (mode_number self.now.mode) self.now.pool.bytes.now self.now.n self.now.m s items.old groups.old labels.old }
        ensures advances { Advances 65535 (λ t. number_group self.now.text.now (mode_number self.now.mode) self.now.pool.bytes.now self.now.n t g)
            s result items.old groups.old labels.old items.new groups.new labels.new }
        ensures lines { LinesBelow self.now.text.now groups.new items.new self.now.n self.now.lines }
        ensures room { item_width * self.now.m ≤ length items.new }
        ensures labelled { IfSome result (λ r. Labelled self.now.text.now (mode_number self.now.mode) self.now.pool.bytes.now self.now.n
            self.now.m r items.new groups.new labels.new) }
    {
        let standing = field::<GROUP_WIDTH>(groups, g, GROUP_STANDING);
        if standing == usize::from(u16::from(Standing::DefinitionLine)) {
            return Some(s);
        }
        let first = field::<GROUP_WIDTH>(groups, g, GROUP_FIRST);
        let count = field::<GROUP_WIDTH>(groups, g, GROUP_COUNT);
        let definitions = self.definitions(groups, items);
        if !all_defined(&definitions, first, count) {
            return Some(s);
        }
        put(
            groups,
            GROUP_WIDTH * g + GROUP_STANDING,
            Standing::Numbered.into(),
        );
        self.cite_from(first, count, s, items, groups, labels)
    }
}

// Group record `g` as `Setting::number_group` numbers it, at any mode number: each above 1 counts as 1. The library itself calls the method,
// whose setting has a `Mode`.
pub fn number_group<'a>(
    text: &'a [u8],
    mode: u8,
    pool: Pool<'a>,
    n: usize,
    lines: usize,
    m: usize,
    g: usize,
    s: Numbering,
    items: &mut [u16],
    groups: &mut [u16],
    labels: &mut [u8],
) -> Option<Numbering>
    requires { (n < record_bound) × (g < record_bound) × (s.sources < half_source_bound) × (s.label_bytes ≤ room_of labels.old)
        × LinesBelow text.now groups.old items.old n lines
        × Labelled text.now mode pool.bytes.now n m s items.old groups.old labels.old }
    ensures advances { Advances 65535 (λ t. number_group text.now mode pool.entry.bytes.now n t g)
        s result items.old groups.old labels.old items.new groups.new labels.new }
    ensures lines { LinesBelow text.now groups.new items.new n lines }
    ensures room { item_width * m ≤ length items.new }
    ensures labelled { IfSome result (λ r. Labelled text.now mode pool.entry.bytes.now n m r items.new groups.new labels.new) }
{
    let mode = Mode::clamped(mode);
    let setting = Setting {
        text,
        pool,
        mode,
        n,
        m,
        lines,
    };
    setting.number_group(g, s, items, groups, labels)
}
