// The section decision: what a subtype of a record 40 stands for, spelled out in the order of the paper form; and, by it, the kind and the closing balance.
ghost use Rattle.std.specs.Prelude.{◌≡◌};
ghost use Rattle.layout.specs.Kinds.{section_kind};
ghost use Rattle.layout.specs.Decision.{decided, balance_of};

use crate::{Kind, Subtype};

// A line: its section, and the subtype of the balance that closes it. A balance: its section. Any other number: none. Sections count from 0, as in the table, with which this agrees on
// every number (`decision-is-table`).
#[tactic(auto, unfolding(crate::specs::Decision::decided))]
fn decide(subtype: u64) -> Option<Subtype>
    ensures { result ≡ decided subtype }
{
    match subtype {
        // Erario
        1 => Some(Subtype::OfLine(0, 2)),
        2 => Some(Subtype::OfBalance(0)),
        // INPS
        3 => Some(Subtype::OfLine(1, 4)),
        4 => Some(Subtype::OfBalance(1)),
        // Regioni
        5 => Some(Subtype::OfLine(2, 6)),
        6 => Some(Subtype::OfBalance(2)),
        // IMU and local taxes
        7 => Some(Subtype::OfLine(3, 8)),
        8 => Some(Subtype::OfBalance(3)),
        // Identifying elements
        17 => Some(Subtype::OfLine(4, 18)),
        18 => Some(Subtype::OfBalance(4)),
        _ => None,
    }
}

// The kind of a record 40 with this subtype.
pub fn section_kind(subtype: u64) -> Kind
    ensures { result ≡ section_kind subtype }
{
    match decide(subtype) {
        Some(Subtype::OfLine(s, _)) => Kind::Line(s),
        Some(Subtype::OfBalance(s)) => Kind::Balance(s),
        None => Kind::Unknown,
    }
}

// The subtype of the balance that closes the lines with this subtype; 0, which is none, where no lines have it.
pub fn balance_of(subtype: u64) -> u64
    ensures { result ≡ balance_of subtype }
{
    match decide(subtype) {
        Some(Subtype::OfLine(_, balance)) => balance,
        Some(Subtype::OfBalance(_)) => 0,
        None => 0,
    }
}
