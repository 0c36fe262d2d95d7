// Why a call is refused: one case for each refusal number of include/citations.h.
// A refusal gives its number.
ghost use Rattle.std.specs.Prelude.{◌≡◌};
ghost use Rattle.base.specs.Refusals.{number_of};

// A refusal, with its number.
#[derive(Clone, Copy, PartialEq, Eq)]
pub enum Refusal {
    // the text has more than 65,535 bytes
    TextTooLong = 1,
    // the text is not UTF-8
    TextNotUtf8 = 2,
    // no `[` stands at the place
    NoBracket = 3,
    // the bracket is escaped
    EscapedBracket = 4,
    // the bracket is no group
    NoGroup = 5,
    // the mode is neither 0 nor 1
    UnknownMode = 6,
    // the pool breaks its layout
    PoolBroken = 7,
    // the pool has no such entry
    NoEntry = 8,
    // index or bracket records are fewer than the text's bytes
    IndexTooShort = 9,
    // an answer area has no room
    NoRoom = 10,
}

impl From<Refusal> for u8 {
    ghost from_gives = { λ refusal number. number ≡ number_of refusal };

    // The number of a refusal.
    fn from(refusal: Refusal) -> u8 {
        refusal as u8
    }
}
