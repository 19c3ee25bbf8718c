// One delega of a flow: its final balance, its lines, the sections that it uses, and its ten section sums.
#![tactic(auto)]

mod used;

ghost use Rattle.std.specs.Prelude.{◌≡◌};
ghost use Rattle.rules.specs.State.{start_state};
ghost use Rattle.judge.specs.Flow.{records_of};
ghost use Rattle.judge.specs.Plain.{Whole};
ghost use Rattle.delega.specs.Used.{none_used};
ghost use Rattle.delega.specs.OneDelega.{refused_as, answered, closes_at, delega_from, delega_of};

use crate::used::Used;
use amounts::Sums;
use layout::{Flow, Kind};
use refusal::Refusal;
use rules::State;

// The verdict beside the delega's final balance, the number of its lines, the set of the sections that it uses with its size and its first, and its sums of each of
// the five sections. All are zeros with a refusal.
// Kept: no Result of the numbers, since the theorem `refused-zeros` speaks of the zeros.
#[derive(Clone, Copy)]
pub struct DelegaAnswer {
    pub verdict: Result<(), Refusal>,
    pub balance: u64,
    pub lines: u64,
    pub set: u64,
    pub size: u64,
    pub first: usize,
    pub sums: [Sums; 5],
}

// A refusal beside zeros.
fn refused(why: Refusal) -> DelegaAnswer
    ensures { result ≡ refused_as why.number why.«record» why.position }
{
    DelegaAnswer {
        verdict: Err(why),
        balance: 0,
        lines: 0,
        set: 0,
        size: 0,
        first: 0,
        sums: [Sums {
            debit: 0,
            credit: 0,
        }; 5],
    }
}

// The answer of the delega that is open, at its 50-01.
fn answer_of(st: State, used: Used) -> DelegaAnswer
    ensures { result ≡ answered st used }
{
    let sums = st.money.delega.sections;
    DelegaAnswer {
        verdict: Ok(()),
        balance: amounts::final_of(st.money.delega.all),
        lines: used.lines,
        set: used.set,
        size: used.size(),
        first: used.first(),
        sums,
    }
}

// Whether a record of kind k is the 50-01 of a delega, after so many records 10.
fn closes(number: u64, deleghe: u64, k: Kind) -> bool
    ensures { result ≡ closes_at number deleghe k }
{
    matches!(k, Kind::Payment) && deleghe == number
}

// The answer of a delega by its number, from the first record on.
fn delega_from(flow: &[u8], number: u64) -> DelegaAnswer
    requires { Whole flow.now }
    ensures { result ≡ delega_from number start_state none_used (records_of flow.now) }
{
    let mut st = rules::start();
    let mut used = Used::none();
    for rec in flow.chunks_exact(Flow::RECORD) {
        let kind = records::kind_in(rec);
        if closes(number, st.deleghe, kind) {
            return answer_of(st, used);
        }
        used = used.after(kind);
        st = rules::next_state(st, kind, records::line_sums(rec, kind));
    }
    refused(Refusal::NO_SUCH_LINE)
}

// The final balance, the lines, the sections and the section sums of the delega with this number, of any bytes.
pub fn delega(flow: &[u8], number: u64) -> DelegaAnswer
    ensures { result ≡ delega_of flow.now number }
{
    let judgement = judge::judge(flow);
    if let Err(why) = judgement.verdict {
        return refused(why);
    }
    if number == 0 || judgement.summary.deleghe < number {
        return refused(Refusal::NO_SUCH_LINE);
    }
    delega_from(flow, number)
}
