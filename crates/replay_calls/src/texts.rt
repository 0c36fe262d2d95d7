// The kinds of the inner functions on a text.
// A body is the request's numbers, the answer's numbers, the text.
use replay_body::body::Body;

// Whether the text is UTF-8.
pub fn utf8_agrees(body: Body<'_>) -> bool {
    usize::from(utf8::is_utf8(body.after(2).0)) == body.number(0)
}

// Whether a place is escaped.
pub fn escaped_agrees(body: Body<'_>) -> bool {
    let at = body.number(0);
    let s = body.after(4).0;
    at <= s.len() && usize::from(text::is_escaped_at(s, at)) == body.number(2)
}

// Where the key at a place ends; the place itself where no key stands there.
pub fn key_agrees(body: Body<'_>) -> bool {
    let at = body.number(0);
    key::parse_key(body.after(4).0, at).unwrap_or(at) == body.number(2)
}

// Whether a byte is part of white space; past the end it is not.
pub fn white_agrees(body: Body<'_>) -> bool {
    let at = body.number(0);
    let s = body.after(4).0;
    let is_white = at < s.len() && text::is_white_at(s, at);
    usize::from(is_white) == body.number(2)
}

// Where a stretch begins and ends, trimmed.
pub fn trim_agrees(body: Body<'_>) -> bool {
    let from = body.number(0);
    let to = body.number(2);
    let s = body.after(8).0;
    to <= s.len()
        && text::trim_start(s, from, to) == body.number(4)
        && text::trim_end(s, from, to) == body.number(6)
}
