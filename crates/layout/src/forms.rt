// The form of a record, by the characters of its type and its subtype.
ghost use Rattle.std.specs.Prelude.{◌≡◌, ◌/◌, ◌%◌, length, [], ◌∷◌};
ghost use Rattle.layout.specs.Kinds.{type_of, kind_of, kind_in, numbered};
ghost use Rattle.layout.specs.declared.RecordType.TheVariants.{T40, T50};
ghost use Rattle.layout.specs.Forms.{form_with, form_of};
ghost use Rattle.text.specs.Numbers.{number_of};

use crate::{Form, Kind, Part, Position, RecordType, section_kind};

fn formed(kind: Kind, amounts: usize, at: usize) -> Form
    ensures { result ≡ form_with kind amounts at }
{
    Form { kind, amounts, at }
}

// The type that two characters spell, as one number with the first one lowest: F4 is 0x3446, 10 0x3031, 20 0x3032, 40 0x3034, 50 0x3035, EF 0x4645.
#[tactic(auto, unfolding(crate::specs::Kinds::type_of, crate::specs::Kinds::same))]
pub fn type_by(word: u64) -> RecordType
    ensures { result ≡ type_of (word % 256) (word / 256) }
{
    match word {
        0x3446 => RecordType::F4,
        0x3031 => RecordType::T10,
        0x3032 => RecordType::T20,
        0x3034 => RecordType::T40,
        0x3035 => RecordType::T50,
        0x4645 => RecordType::EF,
        _ => RecordType::NoType,
    }
}

// The lines and balances of the sections, by the characters of the subtype and in the order of the paper form; of which kind they are is the section decision's.
#[tactic(auto, unfolding(crate::specs::Forms::form_of, text::specs::Numbers::number_from, crate::specs::Kinds::section_kind_from, crate::specs::Sections::section_at))]
fn section_form(a: u8, b: u8) -> Form
    ensures { result ≡ form_of (kind_of T40 (number_of (a ∷ b ∷ []))) }
{
    match (a, b) {
        (b'0', b'1') => formed(section_kind(1), 2, 27 - 1),
        (b'0', b'2') => formed(section_kind(2), 3, 13 - 1),
        (b'0', b'3') => formed(section_kind(3), 2, 52 - 1),
        (b'0', b'4') => formed(section_kind(4), 3, 13 - 1),
        (b'0', b'5') => formed(section_kind(5), 2, 29 - 1),
        (b'0', b'6') => formed(section_kind(6), 3, 15 - 1),
        (b'0', b'7') => formed(section_kind(7), 2, 31 - 1),
        (b'0', b'8') => formed(section_kind(8), 3, 17 - 1),
        (b'1', b'7') => formed(section_kind(17), 2, 41 - 1),
        (b'1', b'8') => formed(section_kind(18), 1, 44 - 1),
        _ => formed(Kind::Unknown, 0, 0),
    }
}

// The payment, its receipt and the receipt's addressee, by the characters of the subtype.
#[tactic(auto, unfolding(crate::specs::Forms::form_of, text::specs::Numbers::number_from, crate::specs::Kinds::payment_kind))]
fn payment_form(a: u8, b: u8) -> Form
    ensures { result ≡ form_of (kind_of T50 (number_of (a ∷ b ∷ []))) }
{
    match (a, b) {
        (b'0', b'1') => formed(Kind::Payment, 1, Position::FINAL_BALANCE - 1),
        (b'0', b'2') => formed(Kind::Receipt, 0, 0),
        (b'0', b'3') => formed(Kind::Addressee, 0, 0),
        _ => formed(Kind::Unknown, 0, 0),
    }
}

// The form of a record, by the same numbers. Most records are of type 40.
pub fn form_in(rec: &[u8]) -> Form
    requires { length rec.now ≡ 120 }
    ensures { result ≡ form_of (kind_in rec.now) }
{
    let t = words::pair_at(rec, Part::TYPE);
    let a = rec[Part::SUBTYPE];
    let b = rec[Part::SUBTYPE + 1];
    if t == 0x3034 {
        return section_form(a, b);
    }
    match t {
        0x3446 => formed(Kind::Head, 0, 0),
        0x3031 => formed(Kind::Taxpayer, 0, 0),
        0x3032 => formed(Kind::Domicile, 0, 0),
        0x3035 => payment_form(a, b),
        0x4645 => formed(Kind::Tail, 2, Position::TAIL_SUM - 1),
        _ => formed(Kind::Unknown, 0, 0),
    }
}

// Whether a record of kind k carries the number of a delega.
#[tactic(auto, unfolding(crate::specs::Kinds::numbered))]
pub fn is_numbered(k: Kind) -> bool
    ensures { result ≡ numbered k }
{
    !matches!(k, Kind::Head | Kind::Tail | Kind::Unknown)
}
