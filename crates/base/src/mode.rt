// How labels are written and sources are ordered: by number, or by author and year.
// A mode is read from its number, and gives it.
ghost use Rattle.std.specs.Prelude.{◌≡◌, MatchResult, ◌<◌, min};
ghost use Rattle.base.specs.Modes.{mode_number};
ghost use Rattle.base.specs.declared.refusal.Refusal.TheVariants.{UnknownMode};

use crate::refusal::Refusal;

// The mode of an annotation, with its number.
#[derive(Clone, Copy, PartialEq, Eq)]
pub enum Mode {
    // a label is the source's number, and sources stand in the order of their numbers
    Number = 0,
    // a label is author and year, and sources stand in the order of their authors
    AuthorYear = 1,
}

impl Mode {
    // The mode that a number stands for where none is refused: every number but 0 stands for author and year.
    pub fn clamped(number: u8) -> Mode
        ensures { mode_number result ≡ min number 1 }
    {
        if number == 0 {
            Mode::Number
        } else {
            Mode::AuthorYear
        }
    }
}

impl TryFrom<u8> for Mode {
    type Error = Refusal;

    ghost try_from_gives = { λ n r. MatchResult r (λ mode. mode_number mode ≡ n) (λ e. (e ≡ UnknownMode) × (1 < n)) };

    // The mode with this number.
    fn try_from(number: u8) -> Result<Mode, Refusal> {
        match number {
            0 => Ok(Mode::Number),
            1 => Ok(Mode::AuthorYear),
            _ => Err(Refusal::UnknownMode),
        }
    }
}

impl From<Mode> for u8 {
    ghost from_gives = { λ mode number. number ≡ mode_number mode };

    // The number of a mode, for callers of what takes any number, as `Mode::clamped` does.
    fn from(mode: Mode) -> u8 {
        mode as u8
    }
}
