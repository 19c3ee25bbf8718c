// The judgement of a flow: its first failed check, or acceptance with the counts and sums of its records.
#![tactic(auto)]

ghost use Rattle.std.specs.Prelude.{◌≡◌, ◌+◌, ◌/◌, ◌<◌, ◌≤◌, length};
ghost use Rattle.layout.specs.Kinds.{type_in};
ghost use Rattle.layout.specs.Fields.{fields_of};
ghost use Rattle.order.specs.Order.{standing};
ghost use Rattle.rules.specs.Checks.{bad_fields};
ghost use Rattle.judge.specs.Part.{record_at, record_start, LiesAt};
ghost use Rattle.state.specs.Numbers.{state_in, kept_after, Kept};
ghost use Rattle.judge.specs.Flow.{refused_with, closing, after, rest_of, judged_from, judged, Ready};
ghost use Rattle.judge.specs.Run.{ran};
ghost use Rattle.judge.specs.Ending.{ending};

use amounts::Sums;
use layout::{Amount, Flow, Kind, Part};
use order::Stage;
use refusal::Refusal;
use rules::State;

// What an accepted flow answers: the number of deleghe and of records, the sum of final balances, the number of lines, the sums of each of the five sections.
#[derive(Clone, Copy)]
pub struct Summary {
    pub deleghe: u64,
    pub records: usize,
    pub total: u64,
    pub lines: u64,
    pub sums: [Sums; 5],
}

// The verdict, acceptance or the refusal, beside the summary, which is all zeros with a refusal.
// Kept: no Result of a summary, since the theorem `refused-zeros` speaks of the zeros.
#[derive(Clone, Copy)]
pub struct Judgement {
    pub verdict: Result<(), Refusal>,
    pub summary: Summary,
}

// A refusal beside a summary of zeros.
fn refused(number: u64, at: usize, position: usize) -> Judgement
    ensures { result ≡ refused_with number at position }
{
    Judgement {
        verdict: Err(Refusal {
            number,
            record: at,
            position,
        }),
        summary: Summary {
            deleghe: 0,
            records: 0,
            total: 0,
            lines: 0,
            sums: [Sums {
                debit: 0,
                credit: 0,
            }; 5],
        },
    }
}

// All records have passed: acceptance after EF, else refusal 5.
fn closing_of(st: State) -> Judgement
    requires { (st.seen < 1000) × (st.others ≤ st.seen) }
    ensures { result ≡ closing st }
{
    if st.stage.phase == Stage::TAIL {
        let sums = st.money.flow;
        return Judgement {
            verdict: Ok(()),
            summary: Summary {
                deleghe: st.deleghe,
                records: st.seen,
                total: st.money.total,
                lines: (st.seen - st.others) as u64,
                sums,
            },
        };
    }
    refused(5, st.seen + 1, 0)
}

// The k-th record, counted from 1, within the caller's own buffer; an empty part where the flow has none.
pub fn nth_record(flow: &[u8], k: usize) -> &[u8]
    ensures { LiesAt flow.entry (record_at flow.now k) (record_start flow.now k) result }
{
    if k == 0 || flow.len() / Flow::RECORD < k {
        return &flow[0..0];
    }
    let end = k * Flow::RECORD;
    let start = end - Flow::RECORD;
    &flow[start..end]
}

// Behind the clean records: the closing where no record is left, else check 3 of the next one, which fails there.
fn ended(flow: &[u8], st: State, count: usize) -> Judgement
    requires { (count ≡ length flow.now / 120) × (st.seen ≤ count) × (st.seen < 1000) × (st.others ≤ st.seen) }
    ensures { result ≡ ending flow.now st }
{
    let k = st.seen;
    if k == count {
        return closing_of(st);
    }
    match records::char_fault(records::record_at(flow, k * Flow::RECORD)) {
        Err(fault) => refused(fault.number, k + 1, fault.position),
        Ok(()) => refused(5, k + 1, 0),
    }
}

// The refusal of a record that does not fit its stage: check 4 or 6, one of which fails there.
fn misplaced(stage: Stage, rec: &[u8], kind: Kind, k: usize) -> Judgement
    requires { (length rec.now ≡ 120) × (k < 1000) }
    ensures { result ≡ after (standing stage (type_in rec.now) kind) k (refused_with 4 (k + 1) 2) }
{
    match order::standing_of(stage, records::type_in(rec), kind) {
        Err(fault) => refused(fault.number, k + 1, fault.position),
        Ok(()) => refused(4, k + 1, 2),
    }
}

// The refusal of a record with a field that holds something else than digits, or else with another number than its delega's.
fn misread(rec: &[u8], kind: Kind, k: usize) -> Judgement
    requires { (length rec.now ≡ 120) × (k < 1000) }
    ensures { result ≡ after (bad_fields (fields_of kind) rec.now) k (refused_with 8 (k + 1) 4) }
{
    let fields = layout::fields_of(kind);
    for &field in &fields.fields[..fields.count] {
        let said = records::read_field(rec, field);
        let Ok(_) = said else {
            return refused(7, k + 1, records::non_digit_at(field, said));
        };
    }
    refused(8, k + 1, 4)
}

// The judgement of the records that are left, after those that led to the state which is kept; the state that they lead to is kept then. Where no numbers
// are kept, it starts before the first record. The amounts of a record are read before its number is compared, which leaves the compiler less to keep at once;
// `misread` tells which of them is refused first.
pub fn judge_from(flow: &[u8], name: &[u8], kept: &mut [u64]) -> Judgement
    requires { Kept kept.old × Ready flow.now (state_in kept.old) × (length name.now ≡ 20) }
    ensures { (result ≡ judged_from name.now (state_in kept.old) (rest_of flow.now (state_in kept.old).seen))
        × (kept.new ≡ kept_after kept.old (ran name.now (state_in kept.old) (rest_of flow.now (state_in kept.old).seen)).state) }
{
    let count = flow.len() / Flow::RECORD;
    let start = state::state_in(kept);
    let clean = records::clean_records(flow, start.seen);
    let mut st = start;
    let mut own = words::number_word(st.deleghe);
    let judgement = 'records: loop {
        let k = st.seen;
        if k == clean {
            break 'records ended(flow, st, count);
        }
        let rec = records::record_at(flow, k * Flow::RECORD);
        let form = layout::form_in(rec);
        let kind = form.kind;
        let stage = st.stage;
        if !order::fits(stage, kind) {
            break 'records misplaced(stage, rec, kind, k);
        }
        let mut values = [0u64; 4];
        if layout::is_numbered(kind) {
            let d = rules::next_deleghe(st.deleghe, kind);
            if let Kind::Taxpayer = kind {
                own = words::number_word(d);
            }
            values[0] = d;
            let last = form.amounts;
            let mut at = form.at;
            let mut f: usize = 0;
            while f < last {
                let Some(v) = words::amount_at(rec, at) else {
                    break 'records misread(rec, kind, k);
                };
                values[f + 1] = v;
                // The second amount follows the first at once, and a sign stands before the third.
                at += Amount::WIDTH + f;
                f += 1;
            }
            if !records::carries(rec, own) {
                break 'records misread(rec, kind, k);
            }
        } else {
            values = match records::values_in(rec, kind) {
                Ok(read) => read,
                Err(position) => break 'records refused(7, k + 1, position),
            };
        }
        if let Err(fault) = rules::values_fault(st, name, kind, rec, values) {
            break 'records refused(fault.number, k + 1, fault.position);
        }
        st = rules::next_state(
            st,
            kind,
            Sums {
                debit: values[1],
                credit: values[2],
            },
        );
    };
    state::keep(kept, st);
    judgement
}

// The judgement of any bytes.
pub fn judge(flow: &[u8]) -> Judgement
    ensures { result ≡ judged flow.now }
{
    let n = flow.len();
    if Flow::MOST_BYTES < n {
        return refused(1, 0, 0);
    }
    if n == 0 || n % Flow::RECORD != 0 {
        return refused(2, 0, 0);
    }
    let mut none = [0u64; 0];
    judge_from(
        flow,
        &flow[Part::SUPPORT_NAME..Part::SUPPORT_NAME_END],
        &mut none,
    )
}
