// A locator whose label has any code, as a caller of the library may have one: `code_of`, `value_of` and `suffix_of` of `crate`, without a
// `Term`. `parse_locator` gives a `Locator`, and that is one of these.
ghost use Rattle.std.specs.Prelude.{◌≡◌};
ghost use Rattle.locator.specs.Coded.{coded, coded_code, coded_value, coded_suffix};

use crate::Locator;
use base::Span;

// The three cases of a locator; a label has any code.
#[derive(Clone, Copy)]
pub enum Coded {
    Nothing,
    Plain {
        suffix: Span,
    },
    Labelled {
        code: u16,
        value: Span,
        suffix: Span,
    },
}

impl From<Locator> for Coded {
    ghost from_gives = { λ l result. result ≡ coded l };

    // The locator with the code of its term.
    #[tactic(auto, unfolding(crate::specs::Coded::coded))]
    fn from(l: Locator) -> Coded {
        match l {
            Locator::Nothing => Coded::Nothing,
            Locator::Plain { suffix } => Coded::Plain { suffix },
            Locator::Labelled {
                term,
                value,
                suffix,
            } => Coded::Labelled {
                code: u16::from(term),
                value,
                suffix,
            },
        }
    }
}

// The code, the value and the suffix of a locator; 0 and missing where there is none.
#[tactic(auto, unfolding(crate::specs::Coded::coded_code, crate::specs::Coded::coded_value, crate::specs::Coded::coded_suffix))]
fn parts(l: Coded) -> (u16, Span, Span)
    ensures { (result.0 ≡ coded_code l) × (result.1 ≡ coded_value l) × (result.2 ≡ coded_suffix l) }
{
    match l {
        Coded::Nothing => (0, Span::default(), Span::default()),
        Coded::Plain { suffix } => (0, Span::default(), suffix),
        Coded::Labelled {
            code,
            value,
            suffix,
        } => (code, value, suffix),
    }
}

// The code of a locator's label, 0 for none.
pub fn code_of(l: Coded) -> u16
    ensures { result ≡ coded_code l }
{
    parts(l).0
}

// The value of a locator; missing where there is none.
pub fn value_of(l: Coded) -> Span
    ensures { result ≡ coded_value l }
{
    parts(l).1
}

// The suffix of a locator; missing where there is none.
pub fn suffix_of(l: Coded) -> Span
    ensures { result ≡ coded_suffix l }
{
    parts(l).2
}
