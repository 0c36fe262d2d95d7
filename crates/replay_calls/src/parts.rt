// The kinds of a group's parts: close, locator and item.
// A body is the request's numbers, the answer's numbers, the text.
use base::Span;
use base::refusal::Refusal;
use item::Item;
use locator::Locator;
use replay_body::body::Body;

// The limit that a number of the list stands for: 65,535 for none.
fn limit(n: usize) -> usize {
    if n == 65535 { usize::MAX } else { n }
}

// Whether a close is the stored one: 1 and its place, or 0 and 0.
fn is_close(close: Option<usize>, body: Body<'_>) -> bool {
    match close {
        Some(place) => body.number(4) == 1 && body.number(6) == place,
        None => body.number(4) == 0 && body.number(6) == 0,
    }
}

// Where a bracket closes, within a limit.
pub fn close_agrees(body: Body<'_>) -> bool {
    let at = body.number(0);
    let s = body.after(8).0;
    at < s.len() && is_close(close::close_bracket(s, at, limit(body.number(2))), body)
}

// The pair that a body begins with.
fn span(body: Body<'_>) -> Span {
    Span {
        at: body.number(0),
        len: body.number(2),
    }
}

// Whether a locator has the value and the suffix that `body` begins with.
fn is_located(l: Locator, body: Body<'_>) -> bool {
    locator::value_of(l) == span(body) && locator::suffix_of(l) == span(body.after(4))
}

// The label code of a locator.
fn code(l: Locator) -> usize {
    usize::from(locator::code_of(l))
}

// Whether an answer is the stored one: its number, then label code, value and suffix.
fn is_locator_answer(answer: Result<Locator, Refusal>, body: Body<'_>) -> bool {
    match answer {
        Ok(locator) => {
            body.number(0) == 0
                && body.number(2) == code(locator)
                && is_located(locator, body.after(4))
        }
        Err(refusal) => body.number(0) == usize::from(u8::from(refusal)),
    }
}

// The parts of a locator.
pub fn locator_agrees(body: Body<'_>) -> bool {
    is_locator_answer(calls::locator(body.after(12).0), body)
}

// Whether an item has the record that `body` begins with: pairs of prefix, key and locator, value and suffix, label code, marks.
fn is_item(item: Item, body: Body<'_>) -> bool {
    item.prefix == span(body)
        && item.key == span(body.after(4))
        && item.locator == span(body.after(8))
        && is_located(item.parts, body.after(12))
        && code(item.parts) == body.number(20)
        && usize::from(item.suppressed) == body.number(22)
}

// Whether an answer is the stored one: 1 and the record, or 0.
fn is_parsed(parsed: Option<Item>, body: Body<'_>) -> bool {
    match parsed {
        Some(item) => body.number(0) == 1 && is_item(item, body.after(2)),
        None => body.number(0) == 0,
    }
}

// The parts of an item. The text stands after the record, where there is one.
pub fn item_agrees(body: Body<'_>) -> bool {
    let to = body.number(2);
    let s = body.after(if body.number(4) == 1 { 38 } else { 6 }).0;
    to <= s.len() && is_parsed(item::parse_item(s, body.number(0), to), body.after(4))
}
