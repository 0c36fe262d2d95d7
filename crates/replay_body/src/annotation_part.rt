// An annotation in a body: mode, length of the pool, number, counts, note; the numbers of its records; the label bytes; the pool.
// Whether the areas of an answer hold what is stored.
ghost use Rattle.std.specs.Prelude.{◌≡◌, ◌≤◌, IsTrue, drop, get_or, length, vec_len};
ghost use Rattle.replay_body.specs.Bodies.{HasLengths};
ghost use Rattle.replay_body.specs.Calls.{items_at, references_at, labels_at, pool_at, stored_pool, annotation_length, AnnotationNumbers};

use crate::areas::{AreaSlices, Areas, BLANK, UNUSED, holds_bytes, holds_numbers, refill};
use crate::body::Body;
use base::refusal::Refusal;

// What a body holds from an annotation on.
#[derive(Clone, Copy)]
pub struct StoredAnnotation<'a>(pub Body<'a>);

impl<'a> StoredAnnotation<'a> {
    // The annotation as if it began at byte 0, so that `next` goes on.
    fn first(self) -> AnnotationAt<'a>
        ensures { (result.part ≡ self.entry.0) × (result.at ≡ 0) }
    {
        AnnotationAt {
            part: self.0,
            at: 0,
        }
    }

    // The mode that is asked for.
    pub fn mode(self) -> u8
        ensures { result ≡ get_or self.entry.0.0.now 0 0 }
    {
        self.first().mode()
    }

    // The numbers of the answer: 0 or a refusal's number, then the counts of groups, items, sources and label bytes.
    pub fn numbers(self) -> (usize, [usize; 4])
        ensures { AnnotationNumbers self.entry.0.0.now result.0 result.1 }
    {
        self.first().numbers()
    }

    // The note of the answer.
    pub fn note(self) -> u8
        ensures { result ≡ get_or self.entry.0.0.now 14 0 }
    {
        self.first().note()
    }

    // The pool that is given.
    pub fn pool(self) -> &'a [u8]
        ensures { result.now ≡ stored_pool self.entry.0.0.now }
    {
        self.first().pool()
    }

    // The annotation after this one.
    pub fn next(self) -> StoredAnnotation<'a>
        ensures { result.0.0.now ≡ drop (annotation_length self.entry.0.0.now) self.entry.0.0.now }
    {
        StoredAnnotation(self.first().next().part)
    }

    // Whether the areas hold the stored answer. (Beside `AnnotationAt::has_areas`: areas that are lent for reading give no `AreaSlices`.)
    pub fn has_areas(self, areas: &Areas) -> bool
        ensures { IsTrue result → HasLengths self.entry.0.0.now (vec_len areas.now.groups) (vec_len areas.now.items) (vec_len areas.now.references) (vec_len areas.now.labels) }
    {
        let stored = self.first();
        let rest = stored.behind(UNUSED);
        let group_places = records::GROUP_WIDTH * self.0.number(6);
        let item_places = records::ITEM_WIDTH * self.0.number(8);
        holds_numbers(&areas.groups, group_places, stored.groups(), rest)
            && holds_numbers(&areas.items, item_places, stored.items(), rest)
            && holds_numbers(
                &areas.references,
                self.0.number(10),
                stored.references(),
                rest,
            )
            && holds_bytes(
                &areas.labels,
                self.0.number(12),
                stored.labels(),
                stored.behind(BLANK),
            )
    }
}

// What a body holds from an annotation on, and at which of its bytes that begins.
#[derive(Clone, Copy)]
pub struct AnnotationAt<'a> {
    pub part: Body<'a>,
    pub at: usize,
}

// The last byte of a body behind which no other annotation is read.
const LAST: usize = 100000000;

impl<'a> AnnotationAt<'a> {
    // The mode that is asked for.
    pub fn mode(self) -> u8
        ensures { result ≡ get_or self.entry.part.0.now 0 0 }
    {
        self.part.byte(0)
    }

    // The numbers of the answer: 0 or a refusal's number, then the counts of groups, items, sources and label bytes. (Numbers in place of a
    // `Result`: the list has them so.)
    pub fn numbers(self) -> (usize, [usize; 4])
        ensures { AnnotationNumbers self.entry.part.0.now result.0 result.1 }
    {
        (
            self.part.number(4),
            [
                self.part.number(6),
                self.part.number(8),
                self.part.number(10),
                self.part.number(12),
            ],
        )
    }

    // The note of the answer.
    pub fn note(self) -> u8
        ensures { result ≡ get_or self.entry.part.0.now 14 0 }
    {
        self.part.byte(14)
    }

    // The numbers of the group records, and what follows them.
    fn groups(self) -> Body<'a>
        ensures { result.0.now ≡ drop 16 self.entry.part.0.now }
    {
        self.part.after(16)
    }

    // The numbers of the item records, and what follows them.
    fn items(self) -> Body<'a>
        ensures { result.0.now ≡ drop (items_at self.entry.part.0.now) self.entry.part.0.now }
    {
        self.groups()
            .after(2 * records::GROUP_WIDTH * self.part.number(6))
    }

    // The numbers of the reference records, and what follows them.
    #[tactic(auto, using(crate::proofs::NumberLaws::dropped_twice))]
    fn references(self) -> Body<'a>
        ensures { result.0.now ≡ drop (references_at self.entry.part.0.now) self.entry.part.0.now }
    {
        self.items()
            .after(2 * records::ITEM_WIDTH * self.part.number(8))
    }

    // The label bytes, and what follows them.
    #[tactic(auto, using(crate::proofs::NumberLaws::dropped_twice))]
    fn labels(self) -> Body<'a>
        ensures { result.0.now ≡ drop (labels_at self.entry.part.0.now) self.entry.part.0.now }
    {
        self.references().after(2 * self.part.number(10))
    }

    // The pool, and what follows it.
    #[tactic(auto, using(crate::proofs::NumberLaws::dropped_twice))]
    fn pool_on(self) -> Body<'a>
        ensures { result.0.now ≡ drop (pool_at self.entry.part.0.now) self.entry.part.0.now }
    {
        self.labels().after(self.part.number(12))
    }

    // The pool that is given.
    pub fn pool(self) -> &'a [u8]
        ensures { result.now ≡ stored_pool self.entry.part.0.now }
    {
        self.pool_on().before(self.part.number(2))
    }

    // How many bytes the annotation has.
    fn length(self) -> usize
        ensures { (result ≡ annotation_length self.entry.part.0.now) × (result ≤ 5000000) }
    {
        16 + 2 * records::GROUP_WIDTH * self.part.number(6)
            + 2 * records::ITEM_WIDTH * self.part.number(8)
            + 2 * self.part.number(10)
            + self.part.number(12)
            + self.part.number(2)
    }

    // The annotation after this one; this one again behind `LAST`.
    pub fn next(self) -> AnnotationAt<'a>
        ensures { self.entry.at ≤ 100000000 → result.part.0.now ≡ drop (annotation_length self.entry.part.0.now) self.entry.part.0.now }
    {
        if LAST < self.at {
            return self;
        }
        let n = self.length();
        AnnotationAt {
            part: self.part.after(n),
            at: self.at + n,
        }
    }

    // Whether the answer is that there was no room.
    fn lacks_room(self) -> bool {
        self.part.number(4) == usize::from(u8::from(Refusal::NoRoom))
    }

    // What an area holds behind the answer: zeros where there was no room, else what it held.
    fn behind<T: Copy + Default>(self, unused: T) -> T {
        if self.lacks_room() {
            T::default()
        } else {
            unused
        }
    }

    // Whether the areas of numbers hold the stored records.
    fn has_records(self, areas: &AreaSlices<'_>) -> bool {
        let groups = records::GROUP_WIDTH * self.part.number(6);
        let items = records::ITEM_WIDTH * self.part.number(8);
        let references = self.part.number(10);
        let rest = self.behind(UNUSED);
        holds_numbers(areas.groups, groups, self.groups(), rest)
            && holds_numbers(areas.items, items, self.items(), rest)
            && holds_numbers(areas.references, references, self.references(), rest)
    }

    // Whether the areas hold the stored answer.
    pub fn has_areas(self, areas: &AreaSlices<'_>) -> bool {
        let labels = self.part.number(12);
        self.has_records(areas)
            && holds_bytes(areas.labels, labels, self.labels(), self.behind(BLANK))
    }

    // Makes an area what it was before the call, where the stored answer has `n` of its places: all of them where there was no room.
    fn refill<T: Copy>(self, area: &mut [T], n: usize, unused: T) {
        let m = area.len();
        refill(area, if self.lacks_room() { m } else { n }, unused);
    }

    // Makes the areas of the stored answer what they were before the call.
    pub fn clear(self, areas: &mut AreaSlices<'_>) {
        self.refill(
            areas.items,
            records::ITEM_WIDTH * self.part.number(8),
            UNUSED,
        );
        self.refill(
            areas.groups,
            records::GROUP_WIDTH * self.part.number(6),
            UNUSED,
        );
        self.refill(areas.references, self.part.number(10), UNUSED);
        self.refill(areas.labels, self.part.number(12), BLANK);
    }
}
