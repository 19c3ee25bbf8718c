// The number of its delega, in a record.
ghost use Rattle.std.specs.Prelude.{◌≡◌, ◌<◌, length};
ghost use Rattle.rebalance.specs.Numbering.{with_number};

use layout::{Kind, Position};

// Writes the number of its delega into a record of a delega, and nothing into any other.
pub fn put_delega(rec: &mut [u8], kind: Kind, d: u64)
    requires { (length rec.old ≡ 120) × (d < 10_000_000) }
    ensures { rec.new ≡ with_number kind d rec.old }
{
    if layout::is_numbered(kind) {
        text::put_number(rec, Position::DELEGA_NUMBER - 1, 7, d);
    }
}
