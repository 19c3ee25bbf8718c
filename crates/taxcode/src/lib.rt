// Tax codes that can exist: sixteen characters by the decree of 23 December 1976, or a VAT number of eleven digits and five spaces.
#![tactic(auto)]

mod firms;
mod persons;
mod places;

ghost use Rattle.std.specs.Prelude.{◌≡◌};
ghost use Rattle.taxcode.specs.TaxCodes.{code_right};

use firms::firm_right;
use persons::person_right;

// How many characters a code has, spaces included, the index of a person's last letter, and how many digits a firm's has.
#[derive(Clone, Copy)]
pub struct Code {
    pub places: usize,
}

impl Code {
    pub const PLACES: usize = 16;

    pub const LAST: usize = Self::PLACES - 1;

    pub const DIGITS: usize = 11;
}

// Whether a code can exist, as a person's or as a firm's.
#[tactic(auto, unfolding(crate::specs::TaxCodes::code_right))]
pub fn code_right(code: &[u8]) -> bool
    ensures { result ≡ code_right code.now }
{
    person_right(code) || firm_right(code)
}
