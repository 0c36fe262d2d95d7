// The label of an item, by its number or by the author and the year of its source, written at the front of the rest of the label bytes.
// Nothing is written where it does not fit. The label of an earlier item may be copied.
#![tactic(auto)]

ghost use Rattle.std.specs.Prelude.{◌≡◌, [], ◌∷◌, ◌++◌, ◌+◌, ◌<◌, ◌≤◌, length, take, drop, MatchOption};
ghost use Rattle.std.proofs.Math.Option.{get_or};
ghost use Rattle.base.specs.Lists.{written};
ghost use Rattle.text.specs.Trim.{trim_end, trim};
ghost use Rattle.decimal.specs.Decimal.{decimal};
ghost use Rattle.base.specs.Lent.{lent};
ghost use Rattle.source.specs.Years.{year_bytes, written_year};
ghost use Rattle.label.specs.Areas.{fitted_at, Fitted};
ghost use Rattle.label.specs.Labels.{or_number, author_year, label_by};
ghost use Rattle.label.specs.Pieces.{label_bytes};

use definition::defined::AuthorYear;
use source::Year;

// What a label is made of: one piece, or an author, a space and a piece. A piece is of the type of a year: a number, or bytes.
#[derive(Clone, Copy)]
enum Label<'a> {
    Piece(Year<'a>),
    Named(&'a [u8], Year<'a>),
}

// An author and a space at the front of `out`.
#[tactic(auto, using(crate::proofs::WriteLaws::put_laws))]
fn write_author(author: &[u8], out: &mut [u8])
    requires { length author.now < length out.old }
    ensures { out.new ≡ written (author.now ++ (32 ∷ [])) out.old }
{
    source::write_bytes(author, out);
    out[author.len()] = b' ';
}

impl Label<'_> {
    // How many bytes the label is.
    fn len(self) -> usize
        ensures { result ≡ length (label_bytes self.entry) }
    {
        match self {
            Label::Piece(piece) => piece.len(),
            Label::Named(author, piece) => author.len() + 1 + piece.len(),
        }
    }

    // The label at the front of `out`.
    #[tactic(auto, using(crate::proofs::WriteLaws::put_laws))]
    fn write(self, out: &mut [u8])
        requires { length (label_bytes self) ≤ length out.old }
        ensures { out.new ≡ written (label_bytes self.entry) out.old }
    {
        match self {
            Label::Piece(piece) => piece.write(out),
            Label::Named(author, piece) => {
                write_author(author, out);
                piece.write(&mut out[author.len() + 1..]);
            }
        }
    }

    // The label, where it fits. Its length.
    #[tactic(auto, using(crate::proofs::WriteLaws::fitted_laws))]
    fn fit(self, out: &mut [u8]) -> usize
        ensures { Fitted (label_bytes self.entry) out.old result out.new }
    {
        let n = self.len();
        if n <= out.len() {
            self.write(out);
        }
        n
    }
}

// The label by a number.
#[tactic(auto, unfolding(source::specs::Decimal::signed_decimal))]
fn number_label<'a>(number: u16) -> Label<'a>
    ensures { label_bytes result ≡ decimal number }
{
    Label::Piece(Year::Number {
        negative: false,
        magnitude: u64::from(number),
    })
}

// Bytes as a label, or the number where there are none.
#[tactic(auto, unfolding(crate::specs::Labels::or_number))]
fn bytes_label<'a>(bytes: &'a [u8], number: u16) -> Label<'a>
    ensures { label_bytes result ≡ or_number bytes.now number }
{
    if bytes.is_empty() {
        number_label(number)
    } else {
        Label::Piece(Year::Text(bytes))
    }
}

// Bytes without the white space at their ends.
#[tactic(auto, using(crate::proofs::LabelLaws::trim_laws))]
fn trimmed<'a>(bytes: &'a [u8]) -> &'a [u8]
    ensures { result.now ≡ trim bytes.now }
{
    let part = text::trim(bytes, 0, bytes.len());
    &bytes[part.start..part.end]
}

// A year without the white space at its end, if something is left of it. A number has none.
#[tactic(auto, using(crate::proofs::LabelLaws::end_laws))]
fn end_trimmed<'a>(year: Option<Year<'a>>) -> Option<Year<'a>>
    ensures { let bytes = get_or (written_year year.entry) [] in let end = trim_end bytes 0 (length bytes) in
        MatchOption result (end ≡ 0) (λ y. (0 < end) × (year_bytes y ≡ take end bytes)) }
{
    match year {
        Some(Year::Text(text)) => {
            let end = text::trim_end(text, 0, text.len());
            (0 < end).then_some(Year::Text(&text[..end]))
        }
        year => year,
    }
}

// "author, space, year, trimmed, or the number if nothing is left" (The white space at the author's start is read once, for each label: no `trimmed`.)
#[tactic(auto, using(crate::proofs::LabelLaws::named_laws))]
fn named_label<'a>(author: &'a [u8], year: Option<Year<'a>>, number: u16) -> Label<'a>
    ensures { label_bytes result ≡ author_year number author.now (get_or (written_year year.entry) []) }
{
    let start = text::trim_start(author, 0, author.len());
    if start < author.len() {
        return match end_trimmed(year) {
            Some(year) => Label::Named(&author[start..], year),
            None => Label::Piece(Year::Text(
                &author[start..text::trim_end(author, start, author.len())],
            )),
        };
    }
    match year {
        Some(Year::Text(text)) => bytes_label(trimmed(text), number),
        Some(year) => Label::Piece(year),
        None => number_label(number),
    }
}

// The label by a number, where it fits. Its length.
pub fn write_number(number: u16, out: &mut [u8]) -> usize
    ensures { Fitted (decimal number) out.old result out.new }
{
    number_label(number).fit(out)
}

// The label by author and year, where it fits. Its length. "A suppressed item shows the year even if that is empty, else its number."
#[tactic(auto, unfolding(crate::specs::Labels::label_by, crate::specs::Labels::year_only))]
pub fn write_author_year(suppressed: bool, number: u16, given: AuthorYear, out: &mut [u8]) -> usize
    ensures { Fitted (label_by 1 suppressed number (get_or (lent given.entry.author) []) (written_year given.entry.year))
        out.old result out.new }
{
    let label = if suppressed {
        given.year.map_or(number_label(number), Label::Piece)
    } else {
        named_label(given.author.unwrap_or(&[]), given.year, number)
    };
    label.fit(out)
}

// The label of an item by a mode's number, where it fits. Its length. It takes any number, as a caller of it may have one; the library itself
// calls `write_number` and `write_author_year`.
#[tactic(auto, unfolding(crate::specs::Labels::label_by))]
pub fn write_label(
    mode: u8,
    suppressed: bool,
    number: u16,
    given: AuthorYear,
    out: &mut [u8],
) -> usize
    ensures { Fitted (label_by mode suppressed number (get_or (lent given.entry.author) []) (written_year given.entry.year))
        out.old result out.new }
{
    match mode {
        0 => write_number(number, out),
        _ => write_author_year(suppressed, number, given, out),
    }
}

// The `len` bytes from `from` on, copied to `at`, where they fit: the label of an item that has the label of an earlier one. Places and no
// slices: what is read and what is written would be two parts of one `&mut` area at once.
#[tactic(auto, using(crate::proofs::AreaLaws::copy_label_laws))]
pub fn copy_label(from: usize, len: usize, at: usize, labels: &mut [u8])
    requires { (from + len ≤ at) × (at ≤ length labels.old) }
    ensures { labels.new ≡ fitted_at (take len (drop from labels.old)) at labels.old }
{
    if len <= labels.len() - at {
        labels.copy_within(from..from + len, at);
    }
}
