// An annotation up to the build of the index: what refuses it before the sweep,
// and the sweep up to a bracket that wants a build.
ghost use Rattle.std.specs.Prelude.{◌≡◌, length, MatchResult};
ghost use Rattle.base.specs.Modes.{mode_number};
ghost use Rattle.base.specs.Refusals.{number_of};
ghost use Rattle.annotation.specs.Refusal.{annotate_refusal};
ghost use Rattle.annotation.specs.Halves.{PreparedBy, prepared_wants};

use base::mode::Mode;
use base::refusal::Refusal;
use lookup::is_too_few;
use pool::Pool;
use resolve::Indexed;
use sweep::group_records::SweepState;
use sweep::{start, sweep};
use utf8::check_text;

// An annotation that nothing refuses before the sweep: its mode, its pool, and the sweep so far.
#[derive(Clone, Copy)]
pub struct Begun<'a> {
    pub mode: Mode,
    pub pool: Pool<'a>,
    pub swept: SweepState,
}

// Refuses an annotation before the sweep, or gives its mode and its pool; `records` bracket records are lent. `mode` is a number, since C
// gives any byte, and `Mode::try_from` refuses what is none.
#[tactic(auto, using(utf8::proofs::Characters::accepted_after, utf8::proofs::Characters::refused_after), unfolding(crate::specs::Refusal::annotate_refusal))]
fn check_annotate<'a>(
    indexed: Indexed,
    mode: u8,
    pool: &'a [u8],
    records: usize,
) -> Result<(Mode, Pool<'a>), Refusal>
    ensures { let number = annotate_refusal indexed.entry.text.now mode pool.now (length indexed.entry.index.now) records in
        MatchResult result
        (λ checked. (number ≡ 0) × (mode_number checked.0 ≡ mode) × (checked.1.bytes.now ≡ pool.now))
        (λ refusal. number_of refusal ≡ number) }
{
    check_text(indexed.text)?;
    let mode = Mode::try_from(mode)?;
    let pool = Pool::try_from(pool)?;
    if is_too_few(indexed.text, indexed.index.len(), records) {
        return Err(Refusal::IndexTooShort);
    }
    Ok((mode, pool))
}

// An annotation up to the build: `records` bracket records are lent.
#[tactic(auto, using(crate::proofs::BeginLaws::prepared_short, crate::proofs::BeginLaws::prepared_counted))]
pub fn prepare<'a>(
    indexed: Indexed,
    mode: u8,
    pool: &'a [u8],
    records: usize,
    items: &mut [u16],
    groups: &mut [u16],
) -> Result<Begun<'a>, Refusal>
    ensures { PreparedBy indexed.entry.text.now mode pool.now indexed.entry.note indexed.entry.index.now records items.old groups.old
        result items.new groups.new }
{
    let (mode, pool) = check_annotate(indexed, mode, pool, records)?;
    let swept = sweep(indexed, start(), items, groups);
    Ok(Begun { mode, pool, swept })
}

// Whether the prepared annotation asks for a build.
#[tactic(auto, unfolding(crate::specs::Halves::prepared_wants))]
pub fn wants_build(prepared: Result<Begun, Refusal>) -> bool
    ensures { result ≡ prepared_wants prepared.entry }
{
    matches!(prepared, Ok(begun) if begun.swept.wants)
}
