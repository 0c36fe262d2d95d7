// The lines that the listing program writes, by one function on slices: `list`. It makes the areas, and calls the annotation on them;
// the crate line_writers writes the lines.
#![tactic(auto)]

ghost use Rattle.std.specs.Prelude.{◌≡◌, length};
ghost use Rattle.base.specs.Lists.{written};
ghost use Rattle.base.specs.Areas.{Wrote};
ghost use Rattle.listing_lines.specs.Listing.{listing_of, TextRefusalsOnly, Counts};
ghost use Rattle.listing_lines.specs.Ready.{Ready};

use base::refusal::Refusal;
use line_writers::Answer;

// The listing of a text for which `list` has made the areas, as long as the text asks for and zero.
fn list_in(
    text: &[u8],
    index: &mut [u16],
    items: &mut [u16],
    groups: &mut [u16],
    references: &mut [u16],
    labels: &mut [u8],
    out: &mut [u8],
) -> usize
    requires { Ready text.now index.old items.old groups.old references.old labels.old out.old }
    ensures { Wrote (listing_of text.now) out.old out.new result }
{
    let answer = local_records::annotate(text, 0, &[], 0, index, items, groups, references, labels);
    line_writers::put_listing(
        answer.counts,
        Answer {
            text,
            groups,
            items,
        },
        out,
    )
}

// The longest text that is listed.
const LONGEST: usize = 4096;

// No listing has more bytes than this (proofs/Bound: 36 for each byte of the text, and 84).
pub const ROOM: usize = 150000;

// The listing of a text: what the listing program writes for it, all lines or `refused N`, at the front of `out`. How many bytes.
pub fn list(text: &[u8], out: &mut [u8; ROOM]) -> usize
    ensures { (result ≡ length (listing_of text.now))
        × (out.new ≡ written (listing_of text.now) out.old)
        × Counts result out.new }
{
    let n = text.len();
    if LONGEST < n {
        return line_writers::put_refusal(Refusal::TextTooLong, out);
    }
    // arrays and no `Vec`: `list` promises its lines for every text, and a `Vec` may have no memory
    let mut index = [0u16; LONGEST];
    let mut items = [0u16; records::ITEM_WIDTH * LONGEST];
    let mut groups = [0u16; records::GROUP_WIDTH * LONGEST];
    let mut references = [0u16; LONGEST];
    let mut labels = [0u8; 5 * LONGEST];
    list_in(
        text,
        &mut index[..n],
        &mut items[..records::ITEM_WIDTH * n],
        &mut groups[..records::GROUP_WIDTH * n],
        &mut references[..n],
        &mut labels[..5 * n],
        out,
    )
}

// The theorem of specs/Listing. The function does nothing; its contract states it.
#[tactic(auto, using(crate::proofs::Enough::text_refusals_only))]
pub fn theorems()
    ensures text_refusals_only { TextRefusalsOnly }
{}
