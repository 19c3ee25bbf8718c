// The slots of a sheet: whether a record is of its slot's kind, and the balance record that is made.
ghost use Rattle.std.specs.Prelude.{◌≡◌, ◌<◌, length, take, drop};
ghost use Rattle.text.specs.Numbers.{digits_of};
ghost use Rattle.amounts.specs.Names.{same_bytes};
ghost use Rattle.sheet.specs.Slots.{type_text, subtype_text, slot_fault, made_balance};

use layout::{Flow, Kind, Part, Position};
use refusal::Fault;

// The characters of the type of a kind.
#[tactic(auto, unfolding(crate::specs::Slots::type_text))]
fn type_text(slot: Kind) -> [u8; 2]
    ensures { result ≡ type_text slot }
{
    match slot {
        Kind::Head => [b'F', b'4'],
        Kind::Taxpayer => [b'1', b'0'],
        Kind::Domicile => [b'2', b'0'],
        Kind::Line(_) | Kind::Balance(_) => [b'4', b'0'],
        Kind::Payment | Kind::Receipt | Kind::Addressee => [b'5', b'0'],
        Kind::Tail => [b'E', b'F'],
        Kind::Unknown => [b' ', b' '],
    }
}

// Whether a record has the subtype n.
fn has_subtype(rec: &[u8], n: u64) -> bool
    requires { (length rec.now ≡ 120) × (n < 100) }
    ensures { result ≡ same_bytes (take 2 (drop 10 rec.now)) (digits_of 2 n) }
{
    let mut digits = [0u8; 2];
    text::put_number(&mut digits, 0, 2, n);
    amounts::same_bytes(&rec[Part::SUBTYPE..Part::SUBTYPE + 2], &digits)
}

// Whether a record has the subtype of its slot's kind, where that has one.
#[tactic(auto, unfolding(crate::specs::Slots::subtype_text, amounts::specs::Names::same_bytes))]
fn subtype_fits(slot: Kind, rec: &[u8]) -> bool
    requires { length rec.now ≡ 120 }
    ensures { result ≡ same_bytes (take (length (subtype_text slot)) (drop 10 rec.now)) (subtype_text slot) }
{
    match slot {
        Kind::Line(s) => has_subtype(rec, layout::section_at(s).line_subtype),
        Kind::Balance(s) => has_subtype(rec, layout::section_at(s).balance_subtype),
        Kind::Payment => has_subtype(rec, 1),
        Kind::Receipt => has_subtype(rec, 2),
        Kind::Addressee => has_subtype(rec, 3),
        _ => true,
    }
}

// 4, of a record that is not of its slot's kind.
pub fn slot_fault(slot: Kind, rec: &[u8]) -> Result<(), Fault>
    requires { length rec.now ≡ 120 }
    ensures { result ≡ slot_fault slot rec.now }
{
    if amounts::same_bytes(&rec[Part::TYPE..Part::TYPE + 2], &type_text(slot)) {
        if subtype_fits(slot, rec) {
            return Ok(());
        }
        return Err(Fault {
            number: 4,
            position: Position::SUBTYPE,
        });
    }
    Err(Fault {
        number: 4,
        position: Position::TYPE,
    })
}

// The balance record that closes the lines of section x, before its number and its sums are filled: its type, the subtype that is decided for these lines, and
// spaces.
pub fn made_balance(x: usize) -> [u8; Flow::RECORD]
    ensures { result ≡ made_balance x }
{
    let section = layout::section_at(x);
    let closing = layout::balance_of(section.line_subtype);
    let mut rec = [b' '; Flow::RECORD];
    text::put_part(&mut rec, Part::TYPE, b"40");
    text::put_number(&mut rec, Part::SUBTYPE, 2, closing);
    rec
}
