// Whether an annotation asks for a build, where it was refused with any number, as a caller of the library may have one, or where no more than
// its sweep is at hand. The library's own calls go by `Begun` and `Refusal`.
ghost use Rattle.std.specs.Prelude.{◌≡◌};
ghost use Rattle.annotation.specs.Numbered.{numbered_wants};

use sweep::group_records::SweepState;

// Whether the prepared annotation asks for a build: the sweep says so; one that was refused with any number asks for none.
#[tactic(auto, unfolding(crate::specs::Numbered::numbered_wants))]
pub fn wants_build(prepared: Result<SweepState, u8>) -> bool
    ensures { result ≡ numbered_wants prepared }
{
    matches!(prepared, Ok(swept) if swept.wants)
}
