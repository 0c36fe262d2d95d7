// The kinds of the calls that are lent an index: a text, and look-ups or annotations on it one after the other, with index and note kept
// between them. Whether the proved call gives the stored answers; docs/DIFFERENCES.md has the body.
ghost use Rattle.replay_body.specs.Areas.{IsCleared};

use crate::numbers::numbers_of;
use replay_body::annotation_part::AnnotationAt;
use replay_body::areas::{AreaSlices, Areas, Lent};
use replay_body::body::Body;
use replay_body::look_up_part::LookUpAt;
use replay_body::session::Session;

// A call that a session stores, with its answer.
pub(crate) trait Stored: Copy {
    // Makes the call, keeps its note, and says whether its answer is the stored one.
    fn ask(self, text: &[u8], areas: &mut AreaSlices<'_>) -> bool;

    // Makes the areas of the stored answer what they were before the call.
    fn clear(self, areas: &mut AreaSlices<'_>);

    // The call after this one.
    fn after(self) -> Self;
}

impl<'a> Stored for LookUpAt<'a> {
    fn ask(self, text: &[u8], areas: &mut AreaSlices<'_>) -> bool {
        let answer = local_records::look_up(
            text,
            self.place(),
            areas.note,
            areas.index,
            areas.items,
        );
        areas.note = answer.note;
        let values = answer.group.map(|group| [group.close, group.count]);
        numbers_of(values) == self.numbers()
            && u16::from(answer.note) == self.note()
            && self.has_items(areas.items)
    }

    fn clear(self, areas: &mut AreaSlices<'_>) {
        self.clear(areas);
    }

    fn after(self) -> LookUpAt<'a> {
        self.next()
    }
}

impl<'a> Stored for AnnotationAt<'a> {
    fn ask(self, text: &[u8], areas: &mut AreaSlices<'_>) -> bool {
        let answer = local_records::annotate(
            text,
            self.mode(),
            self.pool(),
            areas.note,
            areas.index,
            areas.items,
            areas.groups,
            areas.references,
            areas.labels,
        );
        areas.note = answer.note;
        let values = answer.counts.map(|counts| [
            counts.groups,
            counts.items,
            counts.sources,
            counts.label_bytes,
        ]);
        numbers_of(values) == self.numbers() && answer.note == self.note() && self.has_areas(areas)
    }

    fn clear(self, areas: &mut AreaSlices<'_>) {
        self.clear(areas);
    }

    fn after(self) -> AnnotationAt<'a> {
        self.next()
    }
}

// Whether every call of a session, from `first` on, has the stored answer, and the index after them.
pub(crate) fn agrees<S: Stored>(
    session: Session<'_>,
    first: S,
    areas: &mut AreaSlices<'_>,
) -> bool {
    session.start_in(areas);
    let mut stored = first;
    for _ in 0..session.count() {
        if !stored.ask(session.text(), areas) {
            return false;
        }
        stored.clear(areas);
        stored = stored.after();
    }
    session.has_index_in(areas)
}

// Whether every call of a session, from `first` on, has the stored answer, and the index after them, with areas of the heap that hold what no
// call wrote.
fn agrees_on_heap<S: Stored>(session: Session<'_>, first: S, areas: &mut Areas) -> bool
    requires { IsCleared areas.old }
{
    let mut slices = AreaSlices {
        note: areas.note,
        index: &mut areas.index,
        items: &mut areas.items,
        groups: &mut areas.groups,
        references: &mut areas.references,
        labels: &mut areas.labels,
    };
    let agreed = agrees(session, first, &mut slices);
    areas.note = slices.note;
    agreed
}

// Whether look-ups on a text have the stored answers, with areas that the caller keeps. (`look_ups::look_ups_agree` has its own.)
pub fn look_ups_agree(body: Body<'_>, lent: &mut Lent) -> bool {
    let session = Session(body);
    let areas = lent.for_text(session.text().len());
    areas.clear();
    let look_up = LookUpAt {
        part: session.calls(),
        at: session.calls_at(),
    };
    agrees_on_heap(session, look_up, areas)
}

// Whether annotations of a text have the stored answers, with areas that the caller keeps. (`annotations::annotations_agree` has its own.)
pub fn annotations_agree(body: Body<'_>, lent: &mut Lent) -> bool {
    let session = Session(body);
    let areas = lent.for_text(session.text().len());
    areas.clear();
    let annotation = AnnotationAt {
        part: session.calls(),
        at: session.calls_at(),
    };
    agrees_on_heap(session, annotation, areas)
}
