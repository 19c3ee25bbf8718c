// The amounts of a line.
ghost use Rattle.std.specs.Prelude.{◌≡◌, ◌+◌, ◌≤◌, length};
ghost use Rattle.layout.specs.Fields.{amount_at, value_of};
ghost use Rattle.rules.specs.Step.{line_sums};

use amounts::Sums;
use layout::Kind;

// The amount that starts at an index: a field that is no number counts 0.
fn amount_in(rec: &[u8], at: usize) -> u64
    requires { (length rec.now ≡ 120) × (at + 15 ≤ 120) }
    ensures { result ≡ value_of rec.now (amount_at at) }
{
    words::any_amount_at(rec, at).unwrap_or(0)
}

// The debit and the credit of a line of section s.
fn line_amounts(rec: &[u8], s: usize) -> Sums
    requires { length rec.now ≡ 120 }
    ensures { result ≡ line_sums (Kind.Line s) rec.now }
{
    let section = layout::section_at(s);
    Sums {
        debit: amount_in(rec, section.debit),
        credit: amount_in(rec, section.credit),
    }
}

// The amounts of a line: a record that is none has none.
pub fn line_sums(rec: &[u8], k: Kind) -> Sums
    requires { length rec.now ≡ 120 }
    ensures { result ≡ line_sums k rec.now }
{
    match k {
        Kind::Line(s) => line_amounts(rec, s),
        _ => Sums::ZERO,
    }
}
