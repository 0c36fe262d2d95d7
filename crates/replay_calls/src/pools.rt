// The kinds of the pool: whether it has its layout, and the text of an entry.
// A body is the request's numbers, the answer's numbers, the text that is the answer, the pool.
use crate::numbers::numbers_of;
use replay_body::areas::{BLANK, holds_bytes};
use replay_body::body::Body;

// Whether a pool has its layout.
pub fn pool_agrees(body: Body<'_>) -> bool {
    usize::from(pool::is_well_formed(body.after(2).0)) == body.number(0)
}

// The text of an entry, at the front of an area that is as it was behind it. (An array: a pool has at most 32,768 bytes, and the text of its entries
// in the list is never as long as 40,000.)
pub fn source_agrees(body: Body<'_>) -> bool {
    let mut area = [BLANK; 40000];
    let n = body.number(4);
    let answer = calls::source_text(body.after(6).after(n).0, body.number(0), &mut area);
    numbers_of(answer.map(|bytes| [bytes])) == (body.number(2), [n])
        && holds_bytes(&area, n, body.after(6), BLANK)
}
