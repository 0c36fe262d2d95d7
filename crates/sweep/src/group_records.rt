// The records of one group of the sweep: written where they fit,
// and the state of the sweep after it.
ghost use Rattle.std.specs.Prelude.{◌≡◌, ◌+◌, ◌*◌, ◌≤◌, ◌<◌, ◌&&◌, length, [], ◌∷◌};
ghost use Rattle.item.specs.Group.{group_of};
ghost use Rattle.records.specs.ItemRecords.{records_of};
ghost use Rattle.standing.specs.Standings.{standing_number};
ghost use Rattle.sweep.specs.Areas.{written_at};
ghost use Rattle.sweep.specs.Recording.{records_fit, ItemsRoom, Recordable, RecordedOne, after_group};
ghost use Rattle.records.specs.Widths.{item_width, group_width};

use records::item_records::write_records;
use records::{GROUP_WIDTH, ITEM_WIDTH};
use resolve::Group;
use standing::{GroupAt, Standing, standing_of};

// Where a sweep stands: its place, the counts of the groups and items so far, whether the last group stands in a definition line and
// where it ended, whether all records so far fitted, and whether the bracket at its place wants a build. `inside` and `from` stay two: the
// sweep promises where the last group ended whether or not that stands in a definition line. `fits` and `wants` stay flags: each pair of
// values occurs, and a sweep that no longer fits goes on, to count and to ask for its build.
#[derive(Clone, Copy)]
pub struct SweepState {
    pub at: usize,
    pub groups: usize,
    pub items: usize,
    pub inside: bool,
    pub from: usize,
    pub fits: bool,
    pub wants: bool,
}

// Whether all records so far fitted, and areas of `items` and `groups` numbers have room for those of one more group, of `count` items.
fn has_room(s: SweepState, count: usize, items: usize, groups: usize) -> bool
    requires { (s.items + count ≤ 65535) × (s.groups < 65535) }
    ensures { result ≡ (s.fits && records_fit (s.items + count) (s.groups + 1) items groups) }
{
    s.fits && ITEM_WIDTH * (s.items + count) <= items && GROUP_WIDTH * (s.groups + 1) <= groups
}

// Writes the item records of the group from `at` to `close`, from item record `n` on.
#[tactic(auto, using(crate::proofs::Recording::item_laws))]
fn write_items(text: &[u8], at: usize, close: usize, n: usize, items: &mut [u16])
    requires { ItemsRoom text.now at close n items.old }
    ensures { items.new ≡ written_at (item_width * n) (records_of (group_of text.now at close)) items.old }
{
    write_records(text, at, close, &mut items[ITEM_WIDTH * n..]);
}

// Writes group record `g`: the group's place and length, its first item, the count of its items, its standing. (`as`, since the check proves
// that each number fits; `try_from` would answer a refusal that cannot come.)
#[tactic(auto, using(crate::proofs::Areas::part_written))]
fn write_group(
    groups: &mut [u16],
    g: usize,
    at: usize,
    len: usize,
    first: usize,
    count: usize,
    standing: Standing,
)
    requires { (group_width * g + group_width ≤ length groups.old) × (at ≤ 65535) × (len ≤ 65535) × (first ≤ 65535) × (count ≤ 65535) }
    ensures { groups.new ≡ written_at (group_width * g) (at ∷ len ∷ first ∷ count ∷ standing_number standing ∷ []) groups.old }
{
    let k = GROUP_WIDTH * g;
    groups[k..k + GROUP_WIDTH].copy_from_slice(&[
        at as u16,
        len as u16,
        first as u16,
        count as u16,
        u16::from(standing),
    ]);
}

// The state after a group that ends with `close`.
fn after_group(s: SweepState, close: usize, count: usize, inside: bool, fits: bool) -> SweepState
    requires { (close < 65535) × (s.items + count ≤ 65535) × (s.groups ≤ 65535) }
    ensures { result ≡ after_group s close count inside fits }
{
    SweepState {
        at: close + 1,
        groups: s.groups + 1,
        items: s.items + count,
        inside,
        from: close + 1,
        fits,
        wants: false,
    }
}

// Records the group at `at`: writes its records if they fit, and otherwise only counts it. Where they do not fit, nothing is promised of the
// two areas.
#[tactic(auto, using(crate::proofs::Recording::room_laws))]
pub fn record_group(
    text: &[u8],
    s: SweepState,
    at: usize,
    group: Group,
    items: &mut [u16],
    groups: &mut [u16],
) -> SweepState
    requires { Recordable text.now at group.close group.count s (length items.old) (length groups.old) }
    ensures { RecordedOne text.now at group.close s items.old groups.old result items.new groups.new }
{
    let Group { close, count } = group;
    let place = GroupAt { text, at, group };
    let inside = place.is_in_line(s.inside, s.from);
    let fits = has_room(s, count, items.len(), groups.len());
    if fits {
        write_items(text, at, close, s.items, items);
        write_group(
            groups,
            s.groups,
            at,
            close + 1 - at,
            s.items,
            count,
            standing_of(inside),
        );
    }
    after_group(s, close, count, inside, fits)
}
