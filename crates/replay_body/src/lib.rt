// What the kinds of the replay share: a record's body, the lent areas, and a session of calls on one text.
// docs/DIFFERENCES.md says how a body is laid out.
#![tactic(auto)]

pub mod annotation_part;
pub mod areas;
pub mod body;
pub mod look_up_part;
pub mod session;
