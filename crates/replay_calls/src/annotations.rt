// Annotations of a text with areas of the function's own: whether the proved call gives the stored answers.
// docs/DIFFERENCES.md has the body.
ghost use Rattle.std.specs.Prelude.{◌≤◌};

use crate::sessions::agrees;
use replay_body::annotation_part::AnnotationAt;
use replay_body::areas::{AreaSlices, BLANK, SHORT, UNUSED};
use replay_body::body::Body;
use replay_body::session::Session;

// Whether annotations of a text have the stored answers, with areas of these lengths.
fn annotations_agree_in<
    const INDEX: usize,
    const ITEMS: usize,
    const GROUPS: usize,
    const REFERENCES: usize,
>(session: Session<'_>) -> bool
    requires { (INDEX ≤ 65536) × (ITEMS ≤ 349536) × (GROUPS ≤ 82000) × (REFERENCES ≤ 16400) }
{
    let mut index = [0u16; INDEX];
    let mut items = [UNUSED; ITEMS];
    let mut groups = [UNUSED; GROUPS];
    let mut references = [UNUSED; REFERENCES];
    let mut labels = [BLANK; 66000];
    let mut areas = AreaSlices {
        note: 0,
        index: &mut index,
        items: &mut items,
        groups: &mut groups,
        references: &mut references,
        labels: &mut labels,
    };
    let at = session.calls_at();
    let first = AnnotationAt {
        part: session.0.after(at),
        at,
    };
    agrees(session, first, &mut areas)
}

// Whether annotations of a text have the stored answers.
pub fn annotations_agree(body: Body<'_>) -> bool {
    let session = Session(body);
    if session.text().len() <= SHORT {
        annotations_agree_in::<1024, 5504, 1280, 256>(session)
    } else {
        annotations_agree_in::<65536, 349536, 82000, 16400>(session)
    }
}
