// Look-ups on a text with areas of the function's own: whether the proved call gives the stored answers.
// docs/DIFFERENCES.md has the body.
ghost use Rattle.std.specs.Prelude.{◌≤◌};

use crate::sessions::agrees;
use replay_body::areas::{AreaSlices, SHORT, UNUSED};
use replay_body::body::Body;
use replay_body::look_up_part::LookUpAt;
use replay_body::session::Session;

// Whether look-ups on a text have the stored answers, with areas of these lengths. (Beside `annotations::annotations_agree_in`: three areas more would be filled
// for each text. Arrays and no `Vec`s, which may have no memory.)
fn look_ups_agree_in<const INDEX: usize, const ITEMS: usize>(session: Session<'_>) -> bool
    requires { (INDEX ≤ 65536) × (ITEMS ≤ 349536) }
{
    let mut index = [0u16; INDEX];
    let mut items = [UNUSED; ITEMS];
    let mut areas = AreaSlices {
        note: 0,
        index: &mut index,
        items: &mut items,
        groups: &mut [],
        references: &mut [],
        labels: &mut [],
    };
    let at = session.calls_at();
    let first = LookUpAt {
        part: session.0.after(at),
        at,
    };
    agrees(session, first, &mut areas)
}

// Whether look-ups on a text have the stored answers.
pub fn look_ups_agree(body: Body<'_>) -> bool {
    let session = Session(body);
    if session.text().len() <= SHORT {
        look_ups_agree_in::<1024, 5504>(session)
    } else {
        look_ups_agree_in::<65536, 349536>(session)
    }
}
