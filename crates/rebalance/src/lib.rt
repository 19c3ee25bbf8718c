// Rebalancing: every stored field is written anew from the lines.
#![tactic(auto)]

mod numbering;

ghost use Rattle.std.specs.Prelude.{◌≡◌, true, ◌-◌, ◌^◌, ◌<◌, length};
ghost use Rattle.text.specs.Numbers.{digits_of};
ghost use Rattle.text.specs.Placing.{put_at};
ghost use Rattle.layout.specs.Kinds.{kind_in};
ghost use Rattle.layout.specs.Fields.{Within};
ghost use Rattle.rules.specs.State.{start_state};
ghost use Rattle.rules.specs.Stored.{stored_balance, stored_section, stored_of};
ghost use Rattle.rules.specs.Step.{next};
ghost use Rattle.judge.specs.Flow.{records_of};
ghost use Rattle.judge.specs.Plain.{Whole};
ghost use Rattle.rebalance.specs.Rebalance.{put_all, emit, rebalanced, fits_all, all_fit, flat};
ghost use Rattle.rebalance.specs.Weigh.{negative_at, any_negative, Turn};

use amounts::Sums;
use layout::{Amount, Field, Flow, Kind};
pub use numbering::put_delega;
use rules::State;

// The most that a count of the tail can say in seven digits.
const MOST_COUNT: u64 = 9_999_999;

// What the lines of a flow come to: whether some delega is negative, and whether all that is stored has room in its field.
#[derive(Clone, Copy)]
pub struct Surveyed {
    pub negative: bool,
    pub fits: bool,
}

// Whether a 50-01 closes a delega whose debits are below its credits.
fn is_negative(st: State, k: Kind) -> bool
    ensures { result ≡ negative_at st k }
{
    let all = st.money.delega.all;
    matches!(k, Kind::Payment) && all.debit < all.credit
}

// Whether the totals, where the section has them, and the balance have at most fifteen digits.
fn balance_fits(s: usize, t: Sums) -> bool
    ensures { result ≡ fits_all (stored_section s t) }
{
    let section = layout::section_at(s);
    let balance = amounts::apart_of(t.debit, t.credit);
    if section.totals && (Amount::LARGEST < t.debit || Amount::LARGEST < t.credit) {
        return false;
    }
    balance <= Amount::LARGEST
}

// Whether the tail's two counts have at most seven digits, and its sum at most fifteen.
fn tail_fits(st: State) -> bool
    requires { st.seen < 1000 }
    ensures { result ≡ fits_all (stored_of st Kind.Tail) }
{
    let records = (st.seen + 1) as u64;
    st.deleghe <= MOST_COUNT && records <= MOST_COUNT && st.money.total <= Amount::LARGEST
}

// Whether what is stored in a record of kind k, after the records that led to a state, has room in its fields.
fn stored_fit(st: State, k: Kind) -> bool
    requires { st.seen < 1000 }
    ensures { result ≡ fits_all (stored_of st k) }
{
    match k {
        Kind::Balance(s) => balance_fits(s, rules::section_sums(st, s)),
        Kind::Payment => amounts::final_of(st.money.delega.all) <= Amount::LARGEST,
        Kind::Tail => tail_fits(st),
        _ => true,
    }
}

// A flow of whole records is weighed in one pass, before anything is written.
pub fn survey(flow: &[u8]) -> Surveyed
    requires { Whole flow.now }
    ensures { (result.negative ≡ any_negative start_state (records_of flow.now)) × (result.fits ≡ all_fit start_state (records_of flow.now)) }
{
    let mut st = rules::start();
    let mut negative = false;
    let mut fits = true;
    for rec in flow.chunks_exact(Flow::RECORD) {
        let kind = records::kind_in(rec);
        negative |= is_negative(st, kind);
        fits &= stored_fit(st, kind);
        st = rules::next_state(st, kind, records::line_sums(rec, kind));
    }
    Surveyed { negative, fits }
}

// A number that fits its field, in all the digits of the field.
fn store(rec: &mut [u8], field: Field, v: u64)
    requires { (length rec.old ≡ 120) × Within field × (v < 10 ^ (field.end - field.start)) }
    ensures { rec.new ≡ put_at field.start (digits_of (field.end - field.start) v) rec.old }
{
    let start = field.start;
    let end = field.end;
    text::put_number(rec, start, end - start, v);
}

// The sign and the balance of a section whose lines have the sums t.
fn fill_ends(rec: &mut [u8], s: usize, t: Sums)
    requires { (length rec.old ≡ 120) × (fits_all (stored_balance s t) ≡ true) }
    ensures { rec.new ≡ put_all (stored_balance s t) rec.old }
{
    let section = layout::section_at(s);
    let at = section.sign;
    rec[at] = amounts::sign_of(t.debit, t.credit);
    store(
        rec,
        layout::amount_at(section.balance),
        amounts::apart_of(t.debit, t.credit),
    );
}

// The totals, where the section has them, the sign and the balance.
fn fill_balance(rec: &mut [u8], s: usize, t: Sums)
    requires { (length rec.old ≡ 120) × (fits_all (stored_section s t) ≡ true) }
    ensures { rec.new ≡ put_all (stored_section s t) rec.old }
{
    let section = layout::section_at(s);
    if section.totals {
        store(rec, layout::amount_at(section.total_debit), t.debit);
        store(rec, layout::amount_at(section.total_credit), t.credit);
    }
    fill_ends(rec, s, t);
}

// The tail's number of deleghe and of records, and the sum of final balances.
fn fill_tail(rec: &mut [u8], st: State)
    requires { (length rec.old ≡ 120) × (st.seen < 1000) × (fits_all (stored_of st Kind.Tail) ≡ true) }
    ensures { rec.new ≡ put_all (stored_of st Kind.Tail) rec.old }
{
    let records = st.seen + 1;
    store(rec, layout::TAIL_DELEGHE, st.deleghe);
    store(rec, layout::TAIL_RECORDS, records as u64);
    store(rec, layout::TAIL_SUM, st.money.total);
}

// The stored fields of a record of kind k, after the records that led to a state.
pub fn fill(rec: &mut [u8], st: State, k: Kind)
    requires { (length rec.old ≡ 120) × (st.seen < 1000) × (fits_all (stored_of st k) ≡ true) }
    ensures { rec.new ≡ put_all (stored_of st k) rec.old }
{
    let all = st.money.delega.all;
    match k {
        Kind::Balance(s) => fill_balance(rec, s, rules::section_sums(st, s)),
        Kind::Payment => store(rec, layout::FINAL_BALANCE, amounts::final_of(all)),
        Kind::Tail => fill_tail(rec, st),
        _ => {}
    }
}

// One record is rebalanced, and the state goes on: its kind and its amounts are read before its stored fields are written.
fn settle(rec: &mut [u8], st: State) -> State
    requires { Turn rec.old st × (fits_all (stored_of st (kind_in rec.old)) ≡ true) }
    ensures { (result ≡ next st rec.old) × (rec.new ≡ emit st rec.old) }
{
    let kind = records::kind_in(&*rec);
    let after = rules::next_state(st, kind, records::line_sums(&*rec, kind));
    fill(rec, st, kind);
    after
}

// A flow of whole records, all of whose stored fields fit, is rebalanced in place, in one pass.
pub fn rebalance(flow: &mut [u8])
    requires { Whole flow.old × (all_fit start_state (records_of flow.old) ≡ true) }
    ensures { flow.new ≡ flat (rebalanced start_state (records_of flow.old)) }
{
    let mut st = rules::start();
    // Kept: by numbers, and not by `chunks_exact_mut`: what stayed open is that the flow is then its chunks as they were left; once that borrow is over, a proof knows the length alone.
    for k in 0..flow.len() / Flow::RECORD {
        let at = k * Flow::RECORD;
        st = settle(&mut flow[at..at + Flow::RECORD], st);
    }
}
