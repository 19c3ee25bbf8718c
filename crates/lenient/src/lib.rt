// The lenient judgement: the first fault of a flow, with every total, sign, balance and tail value taken as right.
#![tactic(auto)]

ghost use Rattle.std.specs.Prelude.{◌≡◌, ◌<◌, length, get_or};
ghost use Rattle.layout.specs.Fields.{nowhere, support_name, fields_of, bytes_of, value_of};
ghost use Rattle.rules.specs.State.{start_state};
ghost use Rattle.rules.specs.Checks.{bad_fields, negative_fault, tail_name, own_fault};
ghost use Rattle.judge.specs.Flow.{records_of, head_name_of};
ghost use Rattle.judge.specs.Plain.{Whole};
ghost use Rattle.rebalance.specs.Rebalance.{kept_fields};
ghost use Rattle.lenient.specs.Lenient.{misfit_fault, ended, lenient_from};
ghost use Rattle.lenient.specs.Inner.{kept_of, lenient_of};

use amounts::Sums;
use layout::{Flow, Kind, Part, Position};
use order::Stage;
use refusal::{Fault, Refusal};
use rules::State;

// The record that is known to stand in a place of another kind, counted from 1, and the position that is told.
#[derive(Clone, Copy)]
pub struct Misfit {
    pub at: usize,
    pub position: usize,
}

// How many numeric fields of a record are not stored. They are its first ones.
fn kept_count(k: Kind) -> usize
    ensures { result ≡ length (kept_fields k) }
{
    match k {
        Kind::Line(_) => 3,
        Kind::Tail | Kind::Unknown => 0,
        _ => 1,
    }
}

// Check 7, of the fields that are not stored.
fn digits_fault(rec: &[u8], kind: Kind) -> Result<(), Fault>
    requires { length rec.now ≡ 120 }
    ensures { result ≡ bad_fields (kept_fields kind) rec.now }
{
    let fields = layout::fields_of(kind);
    for &field in &fields.fields[..kept_count(kind)] {
        let said = records::read_field(rec, field);
        let Ok(_) = said else {
            return Err(Fault {
                number: 7,
                position: records::non_digit_at(field, said),
            });
        };
    }
    Ok(())
}

// What a record's first numeric field says, the number of its delega or the head's date; 0 where it is no number.
fn first_value(rec: &[u8], kind: Kind) -> u64
    requires { length rec.now ≡ 120 }
    ensures { result ≡ value_of rec.now (get_or (fields_of kind) 0 nowhere) }
{
    let fields = layout::fields_of(kind);
    records::read_field(rec, fields.fields[0]).unwrap_or(0)
}

// Check 14, of a delega whose lines have the sums t.
fn negative_fault(t: Sums) -> Result<(), Fault>
    ensures { result ≡ negative_fault t }
{
    if t.debit < t.credit {
        return Err(Fault {
            number: 14,
            position: Position::TYPE,
        });
    }
    Ok(())
}

// Check 16, of the tail.
fn tail_fault(name: &[u8], rec: &[u8]) -> Result<(), Fault>
    requires { length rec.now ≡ 120 }
    ensures { result ≡ tail_name name.now (bytes_of rec.now support_name) }
{
    if amounts::same_bytes(&rec[Part::SUPPORT_NAME..Part::SUPPORT_NAME_END], name) {
        return Ok(());
    }
    Err(Fault {
        number: 16,
        position: Position::SUPPORT_NAME,
    })
}

// Checks 9, 14, 16, 17 and 26: what is judged beside the stored fields.
fn own_fault(st: State, name: &[u8], rec: &[u8], kind: Kind) -> Result<(), Fault>
    requires { length rec.now ≡ 120 }
    ensures { result ≡ own_fault name.now st kind rec.now }
{
    match kind {
        Kind::Head => rules::head_record(rec, first_value(rec, kind)),
        Kind::Taxpayer => rules::code_fault(rules::has_code(rec)),
        Kind::Domicile => Ok(()),
        Kind::Line(s) => {
            let t = records::line_sums(rec, kind);
            amounts::line_fault(s, t.debit, t.credit)
        }
        Kind::Balance(_) => Ok(()),
        Kind::Payment => negative_fault(st.money.delega.all),
        Kind::Receipt => Ok(()),
        Kind::Addressee => Ok(()),
        Kind::Tail => tail_fault(name, rec),
        Kind::Unknown => Ok(()),
    }
}

// The checks behind 3 that rebalancing leaves alone, of a record of a kind: 4 and 6, 7 of the fields that are not stored, 8, and then 9, 14, 16, 17 and 26.
fn kept_fault(st: State, name: &[u8], rec: &[u8], kind: Kind) -> Result<(), Fault>
    requires { (length rec.now ≡ 120) × (st.deleghe < 1000) }
    ensures { result ≡ kept_of name.now st kind rec.now }
{
    order::standing_of(st.stage, records::type_in(rec), kind)?;
    digits_fault(rec, kind)?;
    let n = first_value(rec, kind);
    rules::number_fault(st.deleghe, kind, n)?;
    own_fault(st, name, rec, kind)
}

// The 4 of the known misfit, where it is the record behind n others.
fn misfit_fault(misfit: Option<Misfit>, n: usize) -> Result<(), Fault>
    requires { n < 1000 }
    ensures { result ≡ misfit_fault misfit n }
{
    match misfit {
        Some(known) if known.at == n + 1 => Err(Fault {
            number: 4,
            position: known.position,
        }),
        _ => Ok(()),
    }
}

// The first failed check of a record of a kind, among those that stay. The 4 of the known misfit comes behind 3, and before the record's own.
fn record_fault(
    st: State,
    name: &[u8],
    rec: &[u8],
    kind: Kind,
    misfit: Option<Misfit>,
) -> Result<(), Fault>
    requires { (length rec.now ≡ 120) × (st.seen < 1000) × (st.deleghe < 1000) }
    ensures { result ≡ lenient_of name.now misfit st kind rec.now }
{
    records::char_fault(rec)?;
    misfit_fault(misfit, st.seen)?;
    kept_fault(st, name, rec, kind)
}

// All records have passed: no refusal after EF, else refusal 5.
fn ended(st: State) -> Result<(), Refusal>
    requires { st.seen < 1000 }
    ensures { result ≡ ended st }
{
    if st.stage.phase == Stage::TAIL {
        return Ok(());
    }
    Err(Refusal {
        number: 5,
        record: st.seen + 1,
        position: 0,
    })
}

// The lenient judgement of a flow of whole records: the refusal by the checks that stay, or none. The record `misfit`, where there is one, is known to stand in a place of another kind, and is refused with 4
// at its position.
pub fn judge_kept(flow: &[u8], misfit: Option<Misfit>) -> Result<(), Refusal>
    requires { Whole flow.now }
    ensures { result ≡ lenient_from (head_name_of flow.now) misfit start_state (records_of flow.now) }
{
    let name = &flow[Part::SUPPORT_NAME..Part::SUPPORT_NAME_END];
    let mut st = rules::start();
    for rec in flow.chunks_exact(Flow::RECORD) {
        let kind = records::kind_in(rec);
        if let Err(fault) = record_fault(st, name, rec, kind, misfit) {
            return Err(fault.in_record(st.seen + 1));
        }
        st = rules::next_state(st, kind, records::line_sums(rec, kind));
    }
    ended(st)
}
