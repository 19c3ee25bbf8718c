// Codes of eleven digits and five spaces.
ghost use Rattle.std.specs.Prelude.{◌≡◌, ◌≤◌};
ghost use Rattle.taxcode.specs.Places.{every_from};
ghost use Rattle.taxcode.specs.Firms.{doubled, count_at, digit_or_space, firm_right};

use crate::Code;
use crate::places::by_place;

// What a digit counts in an even place: its double, less 9 if that is above 9.
#[tactic(auto, unfolding(crate::specs::Firms::doubled))]
fn doubled(d: u8) -> usize
    ensures { result ≡ doubled d }
{
    let twice = 2 * usize::from(d);
    if 9 < twice { twice - 9 } else { twice }
}

// What a digit counts in a place.
#[tactic(auto, unfolding(crate::specs::Firms::count_at))]
fn count_at(k: usize, b: u8) -> usize
    requires { 48 ≤ b }
    ensures { result ≡ count_at k b }
{
    let d = b - b'0';
    by_place(k, doubled(d), usize::from(d))
}

// Whether only spaces stand behind the digits.
fn spaces_only(behind: &[u8]) -> bool
    ensures { result ≡ every_from digit_or_space 12 behind.now }
{
    behind.iter().all(|b| *b == b' ')
}

// Whether a code is eleven digits that sum to a multiple of ten, and five spaces.
pub fn firm_right(code: &[u8]) -> bool
    ensures { result ≡ firm_right code.now }
{
    if code.len() != Code::PLACES {
        return false;
    }
    let mut sum: usize = 0;
    for (i, &b) in code[..Code::DIGITS].iter().enumerate() {
        if !b.is_ascii_digit() {
            return false;
        }
        sum += count_at(i + 1, b);
    }
    spaces_only(&code[Code::DIGITS..]) && sum % 10 == 0
}
