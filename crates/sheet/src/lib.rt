// A working sheet read into a flow: its records in their slots, with what is filled, and the balance records that are made.
#![tactic(auto)]

mod filled;
mod slots;

ghost use Rattle.std.specs.Prelude.{◌≡◌, ◌+◌, ◌*◌, ◌≤◌, ◌<◌, ◌++◌, length, take, drop};
ghost use Rattle.layout.specs.Fields.{bytes_of, support_name};
ghost use Rattle.sheet.specs.Slots.{slot_fault};
ghost use Rattle.sheet.specs.Sheet.{entry, one_record, counted, lines_from, one_section, sections_from, one_delega, deleghe_from, sheet_of};
ghost use Rattle.sheet.specs.Walk.{count_at, start_spot, beyond_by, or_misfit, Here, Enters, Follows};

use layout::{Flow, Kind, Part};
use lenient::Misfit;
use text::DigitsError;

// A spot in a sheet: how many bytes have been read, how many records that makes in the flow, and the first of them that is not of its slot's kind, where there is one.
#[derive(Clone, Copy)]
pub struct Spot {
    pub at: usize,
    pub count: usize,
    pub misfit: Option<Misfit>,
}

// The spot n bytes further on.
fn beyond(spot: Spot, n: usize) -> Spot
    requires { spot.at + n ≤ 18_446_744_073_709_551_615 }
    ensures { result ≡ beyond_by spot n }
{
    Spot {
        at: spot.at + n,
        ..spot
    }
}

// The first record that is not of its slot's kind: the one so far, else the n-th where it is none.
fn or_misfit(so_far: Option<Misfit>, n: usize, slot: Kind, rec: &[u8]) -> Option<Misfit>
    requires { length rec.now ≡ 120 }
    ensures { result ≡ or_misfit so_far n (slot_fault slot rec.now) }
{
    match (so_far, slots::slot_fault(slot, rec)) {
        (None, Err(fault)) => Some(Misfit {
            at: n,
            position: fault.position,
        }),
        _ => so_far,
    }
}

// Writes a record behind the others, where the flow has room for it: a sheet of more than 546 records is gone through all the same.
fn put_record(flow: &mut [u8], count: usize, rec: &[u8])
    requires { (length flow.old ≡ 65520) × (length rec.now ≡ 120) }
    ensures { (length flow.new ≡ 65520)
        × (count < 546 → take (count * 120 + 120) flow.new ≡ take (count * 120) flow.old ++ rec.now) }
{
    if count < Flow::MOST_RECORDS {
        text::put_part(flow, count * Flow::RECORD, rec);
    }
}

// What a walk reads: a sheet, and the name in its head, which has twenty characters.
#[derive(Clone, Copy)]
struct Source<'a> {
    sheet: &'a [u8],
    name: &'a [u8],
    ghost named: { length name.now ≡ 20 },
}

// One more record in the flow, in a slot of delega d. The spot's bytes have been read.
fn enter(source: Source, flow: &mut [u8], spot: Spot, slot: Kind, d: u64, keyed: &[u8]) -> Spot
    requires flow_len { (length flow.old ≡ 65520) × (length keyed.now ≡ 120) }
    requires d_bound { (d < 10_000_000) × (spot.count < spot.at) }
    ensures { Enters source.entry.name.now spot flow.old (entry slot d keyed.now) result flow.new }
{
    let rec = filled::filled_record(keyed, source.name, slot, d);
    put_record(flow, spot.count, &rec);
    let count = spot.count + 1;
    let misfit = or_misfit(spot.misfit, count, slot, &rec);
    Spot {
        count,
        misfit,
        ..spot
    }
}

// A count in so many digits at a spot.
fn count_at(sheet: &[u8], at: usize, width: usize) -> Result<u64, DigitsError>
    requires { (at ≤ length sheet.now) × (width ≤ 15) }
    ensures { result ≡ count_at width (drop at sheet.now) }
{
    if sheet.len() - at < width {
        return Err(DigitsError::TooLong);
    }
    text::number(&sheet[at..at + width])
}

// One record of the sheet, in a slot of delega d.
fn record(source: Source, flow: &mut [u8], spot: Spot, slot: Kind, d: u64) -> Option<Spot>
    requires { Here source.sheet.now spot flow.old × (d < 10_000_000) }
    ensures { Follows source.entry.sheet.now source.entry.name.now spot flow.old (one_record slot d (drop spot.at source.entry.sheet.now)) result flow.new }
{
    if source.sheet.len() - spot.at < Flow::RECORD {
        return None;
    }
    let behind = beyond(spot, Flow::RECORD);
    let at = spot.at;
    let keyed = &source.sheet[at..at + Flow::RECORD];
    Some(enter(source, flow, behind, slot, d, keyed))
}

// n lines of section x.
fn lines(source: Source, flow: &mut [u8], spot: Spot, x: usize, d: u64, n: u64) -> Option<Spot>
    requires { Here source.sheet.now spot flow.old × (d < 10_000_000) }
    ensures { Follows source.entry.sheet.now source.entry.name.now spot flow.old (lines_from x d n (drop spot.at source.entry.sheet.now)) result flow.new }
{
    let mut here = spot;
    for _ in 0..n {
        here = record(source, flow, here, Kind::Line(x), d)?;
    }
    Some(here)
}

// The count and the lines of section x, and the balance record behind them.
fn section(source: Source, flow: &mut [u8], spot: Spot, x: usize, d: u64) -> Option<Spot>
    requires { Here source.sheet.now spot flow.old × (d < 10_000_000) }
    ensures { Follows source.entry.sheet.now source.entry.name.now spot flow.old (counted 2 (drop spot.at source.entry.sheet.now) (one_section x d)) result flow.new }
{
    let Ok(n) = count_at(source.sheet, spot.at, 2) else {
        return None;
    };
    let behind = beyond(spot, 2);
    let end = lines(source, flow, behind, x, d, n)?;
    if n == 0 {
        return Some(end);
    }
    let made = slots::made_balance(x);
    Some(enter(source, flow, end, Kind::Balance(x), d, &made))
}

// The five sections.
fn sections(source: Source, flow: &mut [u8], spot: Spot, d: u64) -> Option<Spot>
    requires { Here source.sheet.now spot flow.old × (d < 10_000_000) }
    ensures { Follows source.entry.sheet.now source.entry.name.now spot flow.old (sections_from d 5 0 (drop spot.at source.entry.sheet.now)) result flow.new }
{
    let mut here = spot;
    for x in 0..5 {
        here = section(source, flow, here, x, d)?;
    }
    Some(here)
}

// One delega: its records 10 and 20, its sections, its 50-01.
fn delega(source: Source, flow: &mut [u8], spot: Spot, d: u64) -> Option<Spot>
    requires { Here source.sheet.now spot flow.old × (d < 10_000_000) }
    ensures { Follows source.entry.sheet.now source.entry.name.now spot flow.old (one_delega d (drop spot.at source.entry.sheet.now)) result flow.new }
{
    let ten = record(source, flow, spot, Kind::Taxpayer, d)?;
    let twenty = record(source, flow, ten, Kind::Domicile, d)?;
    let lines = sections(source, flow, twenty, d)?;
    record(source, flow, lines, Kind::Payment, d)
}

// n deleghe, numbered from 1.
fn deleghe(source: Source, flow: &mut [u8], spot: Spot, n: u64) -> Option<Spot>
    requires { Here source.sheet.now spot flow.old × (n < 1000) }
    ensures { Follows source.entry.sheet.now source.entry.name.now spot flow.old (deleghe_from n 1 (drop spot.at source.entry.sheet.now)) result flow.new }
{
    let mut here = spot;
    for d in 0..n {
        here = delega(source, flow, here, d + 1)?;
    }
    Some(here)
}

// The count of deleghe and the deleghe.
fn counted_deleghe(source: Source, flow: &mut [u8], spot: Spot) -> Option<Spot>
    requires { Here source.sheet.now spot flow.old }
    ensures { Follows source.entry.sheet.now source.entry.name.now spot flow.old (counted 3 (drop spot.at source.entry.sheet.now) (λ n. deleghe_from n 1)) result flow.new }
{
    let Ok(n) = count_at(source.sheet, spot.at, 3) else {
        return None;
    };
    let behind = beyond(spot, 3);
    deleghe(source, flow, behind, n)
}

// A spot at the start of a sheet.
fn start() -> Spot
    ensures { result ≡ start_spot }
{
    Spot {
        at: 0,
        count: 0,
        misfit: None,
    }
}

// The whole sheet, read into a flow. Its name is that of the head.
pub fn read_sheet(sheet: &[u8], flow: &mut [u8]) -> Option<Spot>
    requires { length flow.old ≡ 65520 }
    ensures { Follows sheet.now (bytes_of sheet.now support_name) start_spot flow.old (sheet_of sheet.now) result flow.new }
{
    if sheet.len() < Flow::RECORD {
        return None;
    }
    let name = &sheet[Part::SUPPORT_NAME..Part::SUPPORT_NAME_END];
    let source = Source { sheet, name };
    let head = record(source, flow, start(), Kind::Head, 0)?;
    let all = counted_deleghe(source, flow, head)?;
    let end = record(source, flow, all, Kind::Tail, 0)?;
    if end.at == sheet.len() {
        return Some(end);
    }
    None
}
