// What is filled in a record to be written, by its slot.
ghost use Rattle.std.specs.Prelude.{◌≡◌, ◌<◌, length};
ghost use Rattle.sheet.specs.Sheet.{entry};
ghost use Rattle.sheet.specs.Filled.{with_name, filled};

use layout::{Flow, Kind, Part};

// The head's name, in the tail.
fn put_name(rec: &mut [u8], slot: Kind, name: &[u8])
    requires { (length rec.old ≡ 120) × (length name.now ≡ 20) }
    ensures { rec.new ≡ with_name slot name.now rec.old }
{
    if let Kind::Tail = slot {
        text::put_part(rec, Part::SUPPORT_NAME, name);
    }
}

// A record with what is filled in its slot. Balances and sums are what they are before any line: they are worked out when all lines are there.
pub fn filled_record(keyed: &[u8], name: &[u8], slot: Kind, d: u64) -> [u8; Flow::RECORD]
    requires { (length keyed.now ≡ 120) × (length name.now ≡ 20) × (d < 10_000_000) }
    ensures { result ≡ filled name.now (entry slot d keyed.now) }
{
    let mut rec = [0u8; Flow::RECORD];
    text::put_part(&mut rec, 0, keyed);
    rebalance::put_delega(&mut rec, slot, d);
    put_name(&mut rec, slot, name);
    rebalance::fill(&mut rec, rules::start(), slot);
    rec
}
