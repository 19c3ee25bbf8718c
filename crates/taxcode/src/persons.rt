// Codes of sixteen characters.
ghost use Rattle.std.specs.Prelude.{◌≡◌};
ghost use Rattle.taxcode.specs.Persons.{figure, holds_figure, place_right, even_value, person_right};

use crate::Code;
use crate::places::by_place;

// What A to Z count in odd places.
const ODD_VALUES: [u8; 26] = [
    1, 0, 5, 7, 9, 13, 15, 17, 19, 21, 2, 4, 18, 20, 11, 3, 6, 8, 12, 14, 16, 10, 22, 25, 24, 23,
];

// Whether a byte is a digit, or one of the letters that stand for digits: L to V without O.
#[tactic(auto, using(crate::proofs::Characters::figure_letter))]
fn is_figure(b: u8) -> bool
    ensures { result ≡ figure b }
{
    matches!(b, b'0'..=b'9' | b'L'..=b'N' | b'P'..=b'V')
}

// Whether a place holds digits, or letters for them.
#[tactic(auto, unfolding(crate::specs::Persons::holds_figure, text::specs::Among::among))]
fn holds_figure(k: usize) -> bool
    ensures { result ≡ holds_figure k }
{
    matches!(k, 7 | 8 | 10 | 11 | 13..=15)
}

// Whether a byte may stand in a place.
#[tactic(auto, unfolding(crate::specs::Persons::place_right, crate::specs::Persons::capital))]
fn place_right(k: usize, b: u8) -> bool
    ensures { result ≡ place_right k b }
{
    if holds_figure(k) {
        is_figure(b)
    } else {
        b.is_ascii_uppercase()
    }
}

// What a byte counts in an even place: a digit itself, a letter its place from A as 0.
#[tactic(auto, unfolding(crate::specs::Persons::even_value))]
fn even_value(b: u8) -> usize
    ensures { result ≡ even_value b }
{
    if b.is_ascii_digit() {
        usize::from(b - b'0')
    } else {
        usize::from(b.saturating_sub(b'A'))
    }
}

// Whether sixteen characters are a code: fifteen that may stand in their places, and the letter that they give. The table stands in a local, since the
// compiler writes it into memory wherever it is looked up.
pub fn person_right(code: &[u8]) -> bool
    ensures { result ≡ person_right code.now }
{
    if code.len() != Code::PLACES {
        return false;
    }
    let odd = ODD_VALUES;
    let mut sum: usize = 0;
    for (i, &b) in code[..Code::LAST].iter().enumerate() {
        if !place_right(i + 1, b) {
            return false;
        }
        let v = even_value(b);
        sum += by_place(i + 1, v, usize::from(odd[v]));
    }
    usize::from(code[Code::LAST]) == usize::from(b'A') + sum % 26
}
