// The functions on a body and on areas of the heap, on two records of the stored list, which have the Rust's answers in them.
// The same records with one number changed do not agree.
use crate::sessions::{annotations_agree, look_ups_agree};
use replay_body::annotation_part::{AnnotationAt, StoredAnnotation};
use replay_body::areas::{BLANK, Lent, UNUSED, holds_bytes, holds_numbers, is_all};
use replay_body::body::Body;
use replay_body::look_up_part::{LookUpAt, StoredLookUp};
use replay_body::session::Session;
use std::test::Fail;

// The 240th record of look-ups in the list: one look-up, of a group with one item.
const LOOK_UPS: [u8; 56] =
    *b"0\x00\x00\x00\x04\x00\x01\x00\x01\x00\x01\x00\x04\x00\x01\x00\x00\x00\x04\x00\x01\x00\x00\x00\x00\x00\x00\x00\x03\x00\x01\x00\x00\x00\x00\x00\x00\x00\x00\x00\x00\x00\x00\x00\x00\x00\x00\x00\n[@c]:\n\n";

// The seventh record of annotations: one annotation, of two groups with an item each.
const ANNOTATIONS: [u8; 141] =
    *b"x\x00\x00\x01\x13\x00\x01\x00\x02\x00\x09\x00\x0e\x00\x10\x00\x13\x00\x01\x00\x02\x00\x00\x00\x02\x00\x02\x00\x00\x00\x00\x00\x01\x00\x09\x00\x06\x00\x00\x00\x01\x00\x01\x00\x10\x00\x04\x00\x01\x00\x01\x00\x01\x00\x00\x00\x00\x00\x0c\x00\x02\x00\x00\x00\x00\x00\x00\x00\x00\x00\x00\x00\x00\x00\x00\x00\x01\x00\x00\x00\x00\x00\x00\x00\x00\x00\x00\x00\x00\x00\x12\x00\x01\x00\x00\x00\x00\x00\x00\x00\x00\x00\x00\x00\x00\x00\x00\x00\x00\x00\x00\x00\x00\x00\x00\x00\x00\x00\x00\x00[@a..] \nx[-@a_] [@b] ";

#[test]
fn areas_hold_what_no_call_wrote(rt: HostRuntime) -> Result<(), Fail> {
    let mut lent = Lent::new(rt.alloc())?;
    for (text_length, places) in [(1000, 1024), (1001, 65536)] {
        let areas = lent.for_text(text_length);
        assert_eq!(rt; areas.index.len(), places);
        assert!(rt; is_all(&areas.items, UNUSED) && is_all(&areas.groups, UNUSED));
        areas.labels.fill(0);
        areas.references.fill(0);
        areas.clear();
        assert!(rt; is_all(&areas.labels, BLANK) && is_all(&areas.references, UNUSED));
    }
    Ok(())
}

#[test]
fn numbers_of_a_body(rt: HostRuntime) {
    let body = Body(b"\x01\x02\x03");
    assert_eq!(rt; body.number(0), 513);
    assert_eq!(rt; body.word(1), 770);
    assert_eq!(rt; body.length(0), 197121);
    assert_eq!(rt; body.number(2), 0);
    assert!(rt; holds_numbers(&[513, 7], 1, body, 7) && !holds_numbers(&[513, 7], 3, body, 7));
    assert!(rt; holds_bytes(b"\x01\x02 ", 2, body, b' ') && !holds_bytes(b"\x01", 2, body, b' '));
}

#[test]
fn calls_at_their_place(rt: HostRuntime) {
    let session = Session(Body(&LOOK_UPS));
    assert_eq!(rt; session.calls_at(), 14);
    let look_up = LookUpAt {
        part: session.calls(),
        at: session.calls_at(),
    };
    let (_, [close, count]) = look_up.numbers();
    assert!(rt; close == 4 && count == 1 && !look_up.has_items(&[]));
    assert_eq!(rt; look_up.next().at, 48);
    let session = Session(Body(&ANNOTATIONS));
    let annotation = AnnotationAt {
        part: session.calls(),
        at: session.calls_at(),
    };
    let (_, [groups, items, _, _]) = annotation.numbers();
    assert!(rt; groups == 2 && items == 2);
    assert_eq!(rt; annotation.pool(), b"\x00\x00".as_slice());
    assert_eq!(rt; annotation.next().at, 120);
}

#[test]
fn look_ups_with_areas_of_the_caller(rt: HostRuntime) -> Result<(), Fail> {
    let mut lent = Lent::new(rt.alloc())?;
    let mut other = LOOK_UPS;
    other[18] = 5; // the close, which is at 4
    for _ in 0..2 {
        assert!(rt; look_ups_agree(Body(&LOOK_UPS), &mut lent));
        assert!(rt; !look_ups_agree(Body(&other), &mut lent));
    }
    let mut of_long_text = [b' '; 1056]; // the record, and 1,000 spaces more in its text
    of_long_text[..56].copy_from_slice(&LOOK_UPS);
    assert!(rt; look_ups_agree(Body(&of_long_text), &mut lent));
    Ok(())
}

#[test]
fn a_look_up_in_areas_of_the_caller(rt: HostRuntime) -> Result<(), Fail> {
    let mut lent = Lent::new(rt.alloc())?;
    let session = Session(Body(&LOOK_UPS));
    let stored = StoredLookUp(session.calls());
    let (number, [close, count]) = stored.numbers();
    for (value, stored_value) in [(number, 0), (close, 4), (count, 1), (stored.place(), 1)] {
        assert_eq!(rt; value, stored_value);
    }
    assert_eq!(rt; stored.next().0.0, session.text());
    let areas = lent.for_text(session.text().len());
    session.start(areas);
    let answer = local_records::look_up(
        session.text(),
        stored.place(),
        areas.note,
        &mut areas.index,
        &mut areas.items,
    );
    assert_eq!(rt; answer.note, stored.note());
    assert!(rt; stored.has_items(&areas.items) && !stored.has_items(&[]));
    Ok(())
}

#[test]
fn annotations_with_areas_of_the_caller(rt: HostRuntime) -> Result<(), Fail> {
    let mut lent = Lent::new(rt.alloc())?;
    let mut other = ANNOTATIONS;
    other[34] = 8; // the place of the first group in the records, which is at 9
    for _ in 0..2 {
        assert!(rt; annotations_agree(Body(&ANNOTATIONS), &mut lent));
        assert!(rt; !annotations_agree(Body(&other), &mut lent));
    }
    Ok(())
}

#[test]
fn an_annotation_in_areas_of_the_caller(rt: HostRuntime) -> Result<(), Fail> {
    let mut lent = Lent::new(rt.alloc())?;
    let session = Session(Body(&ANNOTATIONS));
    let stored = StoredAnnotation(session.calls());
    let (number, [groups, items, sources, label_bytes]) = stored.numbers();
    for (value, stored_value) in [
        (number, 0),
        (groups, 2),
        (items, 2),
        (sources, 0),
        (label_bytes, 0),
    ] {
        assert_eq!(rt; value, stored_value);
    }
    assert_eq!(rt; stored.next().0.0, session.text());
    let areas = lent.for_text(session.text().len());
    session.start(areas);
    assert!(rt; session.has_index(areas));
    let answer = local_records::annotate(
        session.text(),
        stored.mode(),
        stored.pool(),
        areas.note,
        &mut areas.index,
        &mut areas.items,
        &mut areas.groups,
        &mut areas.references,
        &mut areas.labels,
    );
    areas.note = answer.note;
    assert_eq!(rt; areas.note, stored.note());
    assert!(rt; stored.has_areas(areas) && session.has_index(areas));
    areas.clear();
    areas.index.fill(0);
    assert!(rt; !stored.has_areas(areas) && !session.has_index(areas));
    Ok(())
}
