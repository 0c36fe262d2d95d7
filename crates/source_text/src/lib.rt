// The text of a source: names, year and title of an entry of the pool,
// and the call that writes it into an area.
#![tactic(auto)]

ghost use Rattle.std.specs.Prelude.{◌≡◌, ◌≤◌, [], length, min};
ghost use Rattle.std.proofs.Math.Option.{get_or};
ghost use Rattle.base.specs.Fold.{fold};
ghost use Rattle.base.specs.Lists.{written};
ghost use Rattle.pool.specs.Entries.{entry_of, field_with};
ghost use Rattle.pool.specs.Views.{fields_left};
ghost use Rattle.source.specs.Entry.{year_of};
ghost use Rattle.source_parts.specs.Parens.{in_parens};
ghost use Rattle.source_parts.specs.Parts.{part_text, Edits};
ghost use Rattle.source_text.specs.Call.{source_text_call};
ghost use Rattle.source_text.specs.Text.{add_name, source_text_of};
ghost use Rattle.source_text.specs.Values.{source_text_values, source_text_numbers, source_text_answer};

use base::refusal::Refusal;
use pool::Pool;
use pool::fields::{Fields, tag};
use source_parts::{Part, Text};

// Joins the names of an entry to a text.
fn add_names(fields: Fields, text: &mut Text)
    ensures { Edits (λ so_far. fold add_name so_far (entry_of (fields_left fields.entry)).names) text.old text.new }
{
    for name in fields.names() {
        text.join(b"; ", Part::name(name));
    }
}

// The text of an entry at the front of `area`, if it has room there (`csl_to_def`). How many bytes it is, up to the largest number.
// The year in parentheses and the title are looked for once, by the caller.
fn write_text(fields: Fields, year: Part, title: Part, area: &mut [u8]) -> usize
    requires { (part_text year ≡ in_parens (year_of (entry_of (fields_left fields))))
        × (part_text title ≡ get_or (field_with 8 (fields_left fields)) []) }
    ensures count { result ≡ min (length (source_text_of (entry_of (fields_left fields.entry)))) usize.MAX }
    ensures area { let out = source_text_of (entry_of (fields_left fields.entry)) in
        length out ≤ length area.old → area.new ≡ written out area.old }
{
    let mut text = Text { area, len: 0 };
    add_names(fields, &mut text);
    text.join(b" ", year);
    text.join(b". ", title);
    if text.len == 0 {
        return 0;
    }
    text.push(b".");
    text.len
}

// "source text 7, 8, 10": the text of entry `entry` at the front of `area`. A refusal touches nothing.
pub fn source_text(pool: &[u8], entry: usize, area: &mut [u8]) -> Result<usize, Refusal>
    ensures value { result ≡ source_text_answer (source_text_call pool.now entry area.old) }
    ensures result_value { source_text_values result ≡ source_text_numbers (source_text_call pool.now entry area.old) }
    ensures area_after { area.new ≡ (source_text_call pool.now entry area.old).area }
{
    let pool = Pool::try_from(pool)?;
    if pool.count() <= entry {
        return Err(Refusal::NoEntry);
    }
    let fields = pool.entry(entry);
    let year = Part::in_parens(source::csl_year(fields));
    let title = Part::plain(fields.field(tag::TITLE).unwrap_or(&[]));
    // in an area of no bytes the text is only counted
    if area.len() < write_text(fields, year, title, &mut []) {
        return Err(Refusal::NoRoom);
    }
    Ok(write_text(fields, year, title, area))
}
