// Reference order: the numbers of the sources, in the mode `AuthorYear` by the bytes of their authors or keys.
// `Sources` is what they are ordered from, and its method `order` orders them.
#![tactic(auto)]

pub mod ranks;

ghost use Rattle.std.specs.Prelude.{◌≡◌, ◌<◌, ◌≤◌, length, take};
ghost use Rattle.base.specs.First.{first};
ghost use Rattle.base.specs.Lists.{written, up_from};
ghost use Rattle.order.specs.Order.{insert_by};
ghost use Rattle.order.specs.Ordered.{greater_at, Rising, SortedBy};
ghost use Rattle.order.specs.ByDefinitions.{rank_of, Known, references_of};

use base::mode::Mode;
use definition::Definitions;
use ranks::{definition_of, rank_by, source_by};

// The sources with the numbers from 1 to `sources`: where their keys are defined, and the `m` item records that number them. That there is room
// for them in `references` is a clause of each method: that area is lent for one call, and nothing holds it.
#[derive(Clone, Copy)]
pub struct Sources<'a> {
    pub definitions: Definitions<'a>,
    pub m: usize,
    pub sources: usize,
    pub ghost few: { definitions.n ≤ 32768 },
    pub ghost records: { m ≤ 65535 },
    pub ghost numbers: { sources ≤ 65535 },
    pub ghost known: { Known definitions m sources },
}

// The first of the numbers in order whose definition has a greater rank than `rank`; their count where none has. (By halves that test a place once at
// most, and no `partition_point`: the library's search ends with one more test, of a place that was mostly tested before, and a test reads a whole
// definition, which may be a line of 30 KB.)
fn place_of(definitions: &Definitions, rank: &[u8], ordered: &[u16]) -> usize
    requires { Rising (greater_at (rank_of definitions.now) rank.now ordered.now) (length ordered.now) }
    ensures place { result ≡ first (greater_at (rank_of definitions.now) rank.now ordered.now) (length ordered.now) 0 }
    ensures within { result ≤ length ordered.now }
{
    let mut low = 0;
    let mut high = ordered.len();
    while low < high {
        let middle = low + (high - low) / 2;
        if rank_by(definitions, usize::from(ordered[middle])) <= rank {
            low = middle + 1;
        } else {
            high = middle;
        }
    }
    low
}

// The definition number `d`, into the `count` definition numbers in order at the front of `references`.
fn insert_definition(definitions: &Definitions, count: usize, d: u16, references: &mut [u16])
    requires { (count < 65535) × (count < length references.old) × SortedBy (rank_of definitions.now) (take count references.old) }
    ensures { references.new ≡ written (insert_by (rank_of definitions.now) (take count references.old) d) references.old }
{
    let rank = rank_by(definitions, usize::from(d));
    let place = place_of(definitions, rank, &references[..count]);
    references[place..=count].rotate_right(1);
    references[place] = d;
}

// The numbers from 1 on, `sources` of them. The check proves that `as` fits; `try_from` would answer a refusal that cannot come.
#[tactic(auto, using(crate::proofs::OrderLaws::up_laws))]
fn order_by_number(sources: usize, references: &mut [u16])
    requires { (sources ≤ 65535) × (sources ≤ length references.old) }
    ensures { references.new ≡ written (up_from 1 sources) references.old }
{
    for (i, reference) in references[..sources].iter_mut().enumerate() {
        *reference = (i + 1) as u16;
    }
}

impl Sources<'_> {
    ghost use Rattle.std.specs.Prelude.{[], map};
    ghost use Rattle.base.specs.Modes.{mode_number};
    ghost use Rattle.order.specs.Order.{inserted_from};
    ghost use Rattle.order.specs.ByDefinitions.{number_of, source_of, source_rank};

    // The numbers of the definitions of the sources, by their ranks. Each definition is searched for once.
    fn order_definitions(&self, references: &mut [u16])
        requires { self.now.sources ≤ length references.old }
        ensures { references.new ≡ written
            (map (number_of self.now.definitions self.now.m) (inserted_from (source_rank self.now.definitions self.now.m) self.now.sources [] 1))
            references.old }
    {
        for i in 0..self.sources {
            let d = definition_of(&self.definitions, self.m, i + 1);
            insert_definition(&self.definitions, i, d, references);
        }
    }

    // The numbers of the sources, for those of their definitions at the first places.
    fn number_sources(&self, references: &mut [u16])
        requires { self.now.sources ≤ length references.old }
        ensures { references.new ≡ written (map (source_of self.now.definitions self.now.m) (take self.now.sources references.old)) references.old }
    {
        for reference in &mut references[..self.sources] {
            *reference = source_by(&self.definitions, self.m, usize::from(*reference));
        }
    }

    // The numbers of the sources by their ranks.
    fn order_by_rank(&self, references: &mut [u16])
        requires { self.now.sources ≤ length references.old }
        ensures { references.new ≡ written (inserted_from (source_rank self.now.definitions self.now.m) self.now.sources [] 1) references.old }
    {
        self.order_definitions(references);
        self.number_sources(references);
    }

    // The numbers of the sources in reference order, at the front of `references`.
    #[tactic(auto, unfolding(crate::specs::References::references_in, crate::specs::Order::reference_order))]
    pub fn order(&self, mode: Mode, references: &mut [u16])
        requires { self.now.sources ≤ length references.old }
        ensures { references.new ≡ written (references_of self.now.definitions self.now.m (mode_number mode) self.now.sources) references.old }
    {
        match mode {
            Mode::Number => order_by_number(self.sources, references),
            Mode::AuthorYear => self.order_by_rank(references),
        }
    }
}

// The numbers of the `sources` sources in reference order by a mode's number, at the front of `references`: each mode but 0 is by author and
// year. It takes any number, as a caller of it may have one; the library itself calls `Sources::order`.
#[tactic(auto, using(crate::proofs::OrderLaws::mode_laws))]
pub fn order_references(
    definitions: &Definitions,
    mode: u8,
    m: usize,
    sources: usize,
    references: &mut [u16],
)
    requires { (definitions.now.n ≤ 32768) × (m ≤ 65535) × (sources ≤ 65535) × (sources ≤ length references.old)
        × Known definitions.now m sources }
    ensures { references.new ≡ written (references_of definitions.now m mode sources) references.old }
{
    let sources = Sources {
        definitions: *definitions,
        m,
        sources,
    };
    sources.order(Mode::clamped(mode), references);
}
