// The second half of a look-up that was refused with any number, as a caller of the library may have one; its own refusals are those of
// `Refusal`, and it calls the forms by these. A number goes back as it came, and then every area stays as it was.
ghost use Rattle.std.specs.Prelude.{◌≡◌};
ghost use Rattle.lookup.specs.Numbered.{numbered_wants, CanFinishNumbered, numbered_finished, numbered_items};

use resolve::{Group, Indexed, Look};

// The answer of a look-up as `crate::LookUp` has it, with the number of a refusal in place of its case.
#[derive(Clone, Copy)]
pub struct LookUpNumbered {
    pub group: Result<Group, u8>,
    pub note: u8,
}

// Whether the prepared look-up asks for a build; one that was refused with any number asks for none.
#[tactic(auto, unfolding(crate::specs::Numbered::numbered_wants))]
pub fn wants_build(prepared: Result<Look, u8>) -> bool
    ensures { result ≡ numbered_wants prepared }
{
    matches!(prepared, Ok(Look::Build))
}

// A look-up from the build on, as `crate::finish` ends it; one that was refused with any number gives that number and the note that was lent.
#[tactic(auto, unfolding(crate::specs::Numbered::numbered_finished, crate::specs::Numbered::numbered_items))]
pub fn finish(
    indexed: Indexed,
    at: usize,
    prepared: Result<Look, u8>,
    items: &mut [u16],
) -> LookUpNumbered
    requires { CanFinishNumbered indexed.text.now at prepared }
    ensures returned { result ≡ numbered_finished indexed.entry.text.now at indexed.entry.note prepared indexed.entry.index.now items.old }
    ensures item_area { items.new ≡ numbered_items indexed.entry.text.now at prepared indexed.entry.index.now items.old }
{
    match prepared {
        Ok(look) => {
            let found = crate::finish(indexed, at, Ok(look), items);
            LookUpNumbered {
                group: found.group.map_err(u8::from),
                note: found.note,
            }
        }
        Err(number) => LookUpNumbered {
            group: Err(number),
            note: indexed.note,
        },
    }
}
