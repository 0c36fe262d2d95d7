// The sweep: left to right, each unescaped `[`,
// and the records of the groups found.
#![tactic(auto)]

pub mod group_records;

ghost use Rattle.std.specs.Prelude.{◌≡◌, ◌≤◌, ◌<◌, length};
ghost use Rattle.base.specs.Lists.{byte_at};
ghost use Rattle.sweep.specs.Stops.{start_state, SweptTo};
ghost use Rattle.sweep.specs.Recording.{Counted};
ghost use Rattle.sweep.specs.Steps.{step_at, moved_to, Turned};
ghost use Rattle.sweep.specs.Facts.{SizeEnough, SizeEnoughRun, SweepInTwo};

use crate::group_records::{SweepState, record_group};
use base::slices::find_byte;
use resolve::{Indexed, Look, match_citation};
use text::is_escaped_at;

// The state before the first group.
pub fn start() -> SweepState
    ensures { result ≡ start_state }
{
    SweepState {
        at: 0,
        groups: 0,
        items: 0,
        inside: false,
        from: 0,
        fits: true,
        wants: false,
    }
}

// What the `[` at `at` gives before any build; an escaped one has no close.
#[tactic(auto, unfolding(crate::specs::Steps::step_at, index::specs::Entries::opens_at))]
fn step_at(indexed: Indexed, at: usize) -> Look
    requires { (at < length indexed.text.now) × (byte_at indexed.text.now at ≡ 91) }
    ensures { result ≡ step_at indexed.entry.text.now indexed.entry.note indexed.entry.index.now at }
{
    if is_escaped_at(indexed.text, at) {
        Look::Known(None)
    } else {
        indexed.look_at(at)
    }
}

// A state of the sweep at another place.
fn move_to(s: SweepState, at: usize, wants: bool) -> SweepState
    ensures { result ≡ moved_to s at wants }
{
    SweepState { at, wants, ..s }
}

// One turn: at the next `[` from the state's place on, or at the text's end.
#[tactic(auto, using(crate::proofs::Turns::turn_laws))]
fn turn(indexed: Indexed, s: SweepState, items: &mut [u16], groups: &mut [u16]) -> SweepState
    requires { (length indexed.text.now ≤ 65535) × (s.at < length indexed.text.now) × Counted indexed.text.now s (length items.old) (length groups.old) }
    ensures { Turned indexed.entry.text.now indexed.entry.note indexed.entry.index.now s items.old groups.old result items.new groups.new }
{
    let at = find_byte(indexed.text, b'[', s.at, indexed.text.len());
    if indexed.text.len() <= at {
        return move_to(s, at, false);
    }
    match step_at(indexed, at) {
        Look::Build => move_to(s, at, true),
        // most brackets of a text without groups: no call for them
        Look::Known(None) => move_to(s, at + 1, false),
        Look::Known(close) => match match_citation(indexed.text, at, close) {
            Some(group) => record_group(indexed.text, s, at, group, items, groups),
            None => move_to(s, at + 1, false),
        },
    }
}

// The sweep from the state `s` on, up to the text's end or to a bracket that wants a build. Where a record did not fit, nothing is promised
// of the two areas.
#[tactic(auto, using(crate::proofs::Turns::sweep_laws))]
pub fn sweep(indexed: Indexed, s: SweepState, items: &mut [u16], groups: &mut [u16]) -> SweepState
    requires { (length indexed.text.now ≤ 65535) × Counted indexed.text.now s (length items.old) (length groups.old) }
    ensures { SweptTo indexed.entry.text.now indexed.entry.note indexed.entry.index.now s items.old groups.old result items.new groups.new }
{
    let mut r = move_to(s, s.at, false);
    // A `while`: each turn says where the next one begins.
    while r.at < indexed.text.len() {
        r = turn(indexed, r, items, groups);
        if r.wants {
            return r;
        }
    }
    r
}

// The theorems of specs/Facts. The function does nothing; its contract states them.
#[tactic(auto, using(crate::proofs::Sizes::size_enough, crate::proofs::Sizes::size_enough_run, crate::proofs::Stops::sweep_in_two))]
pub fn theorems()
    ensures size_enough { SizeEnough }
    ensures size_enough_run { SizeEnoughRun }
    ensures sweep_in_two { SweepInTwo }
{}
