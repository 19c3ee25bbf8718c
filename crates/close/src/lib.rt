// A flow closed up, in place, over deleghe whose numbers are in a list: the records that stay, numbered from 1, and spaces behind them.
#![tactic(auto)]

mod numbers;

ghost use Rattle.std.specs.Prelude.{◌≡◌, ◌+◌, ◌*◌, ◌<◌, ◌≤◌, ◌++◌, length, take, drop, replicate};
ghost use Rattle.text.specs.Placing.{put_at};
ghost use Rattle.layout.specs.Kinds.{kind_in};
ghost use Rattle.layout.specs.Fields.{delega_number, value_of};
ghost use Rattle.judge.specs.Plain.{Whole};
ghost use Rattle.rebalance.specs.Numbering.{with_number};
ghost use Rattle.close.specs.Closing.{stays, closed_up, spaced};
ghost use Rattle.close.specs.Inner.{record_from, kept_after, moved_up, Reached};

use layout::{Flow, Kind, Position};
pub use numbers::each_once;
use numbers::names;

// How far closing up has come: the records that stay so far, and the deleghe that begin among them.
#[derive(Clone, Copy)]
struct Kept {
    records: usize,
    deleghe: u64,
}

// The number of its delega that a record carries.
fn number_in(rec: &[u8]) -> u64
    requires { length rec.now ≡ 120 }
    ensures { result ≡ value_of rec.now delega_number }
{
    text::number(&rec[Position::DELEGA_NUMBER - 1..Position::SUBTYPE - 1]).unwrap_or(0)
}

// Whether a record of a kind stays: one that carries a number of the list does not.
fn is_kept(rec: &[u8], kind: Kind, numbers: &[u64]) -> bool
    requires { (length rec.now ≡ 120) × (kind ≡ kind_in rec.now) }
    ensures { result ≡ stays numbers.now rec.now }
{
    !layout::is_numbered(kind) || !names(numbers, number_in(rec))
}

// Puts the record at one index of a flow at another, not behind it, with the number of its delega.
fn move_record(flow: &mut [u8], from: usize, to: usize, kind: Kind, d: u64)
    requires { (from + 120 ≤ length flow.old) × (to ≤ from) × (d < 10_000_000) }
    ensures { flow.new ≡ put_at to (with_number kind d (take 120 (drop from flow.old))) flow.old }
{
    let mut rec = [0u8; Flow::RECORD];
    text::put_part(&mut rec, 0, records::record_at(flow, from));
    rebalance::put_delega(&mut rec, kind, d);
    text::put_part(flow, to, &rec);
}

// Goes over the k-th record of a flow, counted from 0: one that stays is moved up behind those that are kept.
fn keep(flow: &mut [u8], k: usize, kept: Kept, numbers: &[u64]) -> Kept
    requires { Reached flow.old k kept }
    ensures { (result ≡ kept_after numbers.now (record_from flow.old k) kept)
        × (flow.new ≡ moved_up numbers.now (record_from flow.old k) kept flow.old) }
{
    let from = k * Flow::RECORD;
    let rec = records::record_at(flow, from);
    let kind = records::kind_in(rec);
    if is_kept(rec, kind, numbers) {
        let deleghe = rules::next_deleghe(kept.deleghe, kind);
        move_record(flow, from, kept.records * Flow::RECORD, kind, deleghe);
        return Kept {
            records: kept.records + 1,
            deleghe,
        };
    }
    kept
}

// Moves the records that stay to the front of a flow. The answer is how many bytes they have; those behind them are as they came.
fn move_up(flow: &mut [u8], numbers: &[u64]) -> usize
    requires { Whole flow.old }
    ensures { (result ≡ length (closed_up numbers.now flow.old)) × (result ≤ length flow.old)
        × (flow.new ≡ closed_up numbers.now flow.old ++ drop result flow.old) }
{
    let mut kept = Kept {
        records: 0,
        deleghe: 0,
    };
    // Kept: by numbers: a record is moved within the flow, to before where it stood, which chunks don't let.
    for k in 0..flow.len() / Flow::RECORD {
        kept = keep(flow, k, kept, numbers);
    }
    kept.records * Flow::RECORD
}

// Closes a flow up over the deleghe that a list names. The answer is how many bytes are left; spaces stand behind them.
pub fn close_up(flow: &mut [u8], numbers: &[u64]) -> usize
    requires { Whole flow.old }
    ensures { (result ≡ length (closed_up numbers.now flow.old)) × (result ≤ length flow.old)
        × (flow.new ≡ spaced (closed_up numbers.now flow.old) (length flow.old)) }
{
    let n = move_up(flow, numbers);
    flow[n..].fill(b' ');
    n
}
