// The calls that take the record of ten sums kept beside a flow, and hand back the one that stands for the flow as it is then.
#![tactic(auto)]

ghost use Rattle.std.specs.Prelude.{◌≡◌, Err};
ghost use Rattle.kept.specs.Keeping.{keeping, correction_kept, corrected_with, mending_kept, mended_with, listed_with, dropping_kept, dropped_with};
ghost use Rattle.kept.specs.Inner.{or_foreign};

use refusal::Refusal;
use sums::KeptSums;

// The verdict on a flow, and the record that is made of it: zeros with a refusal.
// Kept: no Result of the record, since the theorem `kept-refused` speaks of the zeros.
#[derive(Clone, Copy)]
pub struct Keeping {
    pub verdict: Result<(), Refusal>,
    pub kept: KeptSums,
}

// The answer of a call, and the record that is handed back.
#[derive(Clone, Copy)]
pub struct WithSums<T> {
    pub answer: Result<T, Refusal>,
    pub kept: KeptSums,
}

// Judges a flow, and makes its record where it is accepted.
pub fn keep(flow: &[u8]) -> Keeping
    ensures { result ≡ keeping flow.now }
{
    let judgement = judge::judge(flow);
    // Kept: tried without the variable, and a literal that takes an array straight from a field gets no proof.
    let sums = judgement.summary.sums;
    Keeping {
        verdict: judgement.verdict,
        kept: KeptSums { sums },
    }
}

// The refusal of a call whose record is not the flow's: that of the call's own judgement, else 29.
fn or_foreign(own: Result<(), Refusal>) -> Refusal
    ensures { result ≡ or_foreign own }
{
    match own {
        Ok(()) => Refusal::FOREIGN_SUMS,
        Err(why) => why,
    }
}

// The answer to such a call, and the record as it came.
fn unmatched<T>(own: Result<(), Refusal>, kept: KeptSums) -> WithSums<T>
    ensures { result ≡ record { answer = Err (or_foreign own); kept = kept } }
{
    WithSums {
        answer: Err(or_foreign(own)),
        kept,
    }
}

// Corrects one line of a flow for whose lines the record stands. The flow is judged by the plain call, and by itself only where the record does not stand for it.
pub fn correct_kept(
    flow: &mut [u8],
    delega: u64,
    subtype: u64,
    nth: u64,
    debit: u64,
    credit: u64,
    kept: KeptSums,
) -> WithSums<()>
    ensures { (result ≡ correction_kept kept flow.old delega subtype nth debit credit)
        × (flow.new ≡ corrected_with kept flow.old delega subtype nth debit credit) }
{
    if !sums::matches(kept, flow) {
        return unmatched(judge::judge(flow).verdict, kept);
    }
    let answer = correct::correct(flow, delega, subtype, nth, debit, credit);
    let left = match answer {
        Ok(()) => sums::of_lines(flow),
        Err(_) => kept,
    };
    WithSums { answer, kept: left }
}

// Rebalances a flow for whose lines the record stands. No line changes, and so the record stands for the flow afterwards.
pub fn rebalance_kept(flow: &mut [u8], list: &mut [u64], kept: KeptSums) -> WithSums<usize>
    ensures { (result ≡ mending_kept kept flow.old list.old)
        × (flow.new ≡ mended_with kept flow.old list.old)
        × (list.new ≡ listed_with kept flow.old list.old) }
{
    if !sums::matches(kept, flow) {
        return unmatched(mend::first_remaining(flow), kept);
    }
    let answer = mend::mend(flow, list);
    WithSums { answer, kept }
}

// Drops the deleghe that a list names from a flow for whose lines the record stands.
pub fn drop_kept(flow: &mut [u8], numbers: &[u64], kept: KeptSums) -> WithSums<usize>
    ensures { (result ≡ dropping_kept kept flow.old numbers.now)
        × (flow.new ≡ dropped_with kept flow.old numbers.now) }
{
    if !sums::matches(kept, flow) {
        return unmatched(judge::judge(flow).verdict, kept);
    }
    let answer = dropping::drop_deleghe(flow, numbers);
    let left = match answer {
        Ok(length) => sums::of_lines(&flow[..length]),
        Err(_) => kept,
    };
    WithSums { answer, kept: left }
}
