// The build of the index: what it reads and stores of the lent bracket records, one turn of the scan, and the loop.
// No other module reads or writes the slice of records.
ghost use Rattle.std.specs.Prelude.{◌<◌, length, set, get_or, true, ◌≡◌};
ghost use Rattle.index.specs.Built.{blank};
ghost use Rattle.index.specs.Building.{built, built_when, Enough};
ghost use Rattle.index.specs.Passing.{turn_at};
ghost use Rattle.index.specs.Scan.{step_index, step_records};
ghost use Rattle.index.specs.Turn.{Ready};

use crate::{Bracket, Scan, Scanner};

// A record, as the definition of a turn reads it.
fn record_at(records: &[Bracket], i: usize) -> Bracket
    requires { i < length records.now }
    ensures { result ≡ get_or records.now i blank }
{
    records[i]
}

// A record, as the definition of a turn writes it.
fn store(records: &mut [Bracket], i: usize, b: Bracket)
    requires { i < length records.old }
    ensures { records.new ≡ set records.old i b }
{
    records[i] = b;
}

// One turn of the scan: the next state, with one record stored and one entry written.
#[tactic(auto, using(crate::proofs::Passing::turn_laws))]
fn step(text: &[u8], c: Scan, index: &mut [u16], records: &mut [Bracket]) -> Scan
    requires { Ready text.now c index.old records.old }
    ensures { (result ≡ (turn_at text.now c records.old).next)
        × (index.new ≡ step_index (turn_at text.now c records.old) index.old)
        × (records.new ≡ step_records (turn_at text.now c records.old) records.old) }
{
    let outer = record_at(records, c.depth.saturating_sub(1));
    let scanner = Scanner { text };
    let plan = scanner.scan_plan(c, outer);
    // both stores stand before `skip`: 65,530 bytes `[` take 238 µs so, and 329 by `decide`, after which both would stand
    store(records, plan.slot, plan.top);
    index[plan.place] = plan.mark;
    scanner.skip(plan.next)
}

// Builds the index of the text: clears its entries, takes the turns of the scan, and clears the records.
fn bracket_pairs(text: &[u8], index: &mut [u16], records: &mut [Bracket])
    requires { Enough text.now (length index.old) (length records.old) }
    ensures { (index.new, records.new) ≡ built text.now index.old records.old }
{
    index[..text.len()].fill(0);
    let mut c = Scan::default();
    // no iterator is plainer: each turn says where the next one begins
    while c.at < text.len() {
        c = step(text, c, index, records);
    }
    records[..text.len()].fill(Bracket::default());
}

// Builds the index where that is wanted; else does nothing. (No closure, and no `if` at the callers: what a call promises of both areas is one
// equation over `want`, and this contract is that equation.)
#[tactic(auto, unfolding(crate::specs::Built::index_after, crate::specs::Built::records_after))]
pub fn build_when(want: bool, text: &[u8], index: &mut [u16], records: &mut [Bracket])
    requires { want ≡ true → Enough text.now (length index.old) (length records.old) }
    ensures { (index.new, records.new) ≡ built_when want text.now index.old records.old }
{
    if want {
        bracket_pairs(text, index, records);
    }
}
