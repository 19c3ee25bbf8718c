// The correction of one line: its amounts replaced, and every total, sign, balance and tail sum worked out afresh from all the lines.
#![tactic(auto)]

ghost use Rattle.std.specs.Prelude.{◌≡◌, ◌+◌, ◌≤◌, length, take, drop};
ghost use Rattle.text.specs.Placing.{put_at};
ghost use Rattle.judge.specs.Plain.{Whole};
ghost use Rattle.rebalance.specs.Rebalance.{refreshed};
ghost use Rattle.correct.specs.Correction.{section_of, replaced, outcome_of, weighed, tried, bytes_after, correction_of, corrected_bytes};
ghost use Rattle.correct.specs.Writing.{amounts_put, Room, Fifteen, KthLine};

use layout::{Amount, Flow, Kind};
use refusal::Refusal;

// The section whose lines have a subtype; past the table where there is none.
fn section_of(subtype: u64) -> usize
    ensures { result ≡ section_of subtype }
{
    let Kind::Line(s) = layout::section_kind(subtype) else {
        return 5;
    };
    s
}

// Writes a line's new amounts, at the indexes where they start.
fn put_amounts(flow: &mut [u8], debit_at: usize, credit_at: usize, debit: u64, credit: u64)
    requires { Room flow.old debit_at credit_at × Fifteen debit × Fifteen credit }
    ensures { flow.new ≡ amounts_put debit_at credit_at debit credit flow.old }
{
    text::put_number(flow, credit_at, Amount::WIDTH, credit);
    text::put_number(flow, debit_at, Amount::WIDTH, debit);
}

// The fifteen bytes that start at an index.
fn bytes_at(flow: &[u8], at: usize) -> [u8; Amount::WIDTH]
    requires { at + 15 ≤ length flow.now }
    ensures { result ≡ take 15 (drop at flow.now) }
{
    let mut copy = [0u8; Amount::WIDTH];
    text::put_part(&mut copy, 0, &flow[at..at + Amount::WIDTH]);
    copy
}

// Puts a line's old bytes back.
fn put_back(
    flow: &mut [u8],
    debit_at: usize,
    credit_at: usize,
    debit: [u8; Amount::WIDTH],
    credit: [u8; Amount::WIDTH],
)
    requires { Room flow.old debit_at credit_at }
    ensures { flow.new ≡ put_at credit_at credit (put_at debit_at debit flow.old) }
{
    text::put_part(flow, debit_at, &debit);
    text::put_part(flow, credit_at, &credit);
}

// 14, then 23: what a flow whose line has been replaced is answered.
fn outcome(negative: bool, fits: bool) -> Result<(), Refusal>
    ensures { result ≡ outcome_of negative fits }
{
    if negative {
        return Err(Refusal::NEGATIVE_DELEGA);
    }
    if fits {
        return Ok(());
    }
    Err(Refusal::NO_FIT)
}

// Replaces a line's amounts, and works everything out afresh; or, where a delega turns negative or a value does not fit, puts them back.
fn replace(
    flow: &mut [u8],
    debit_at: usize,
    credit_at: usize,
    debit: u64,
    credit: u64,
) -> Result<(), Refusal>
    requires { Whole flow.old × Room flow.old debit_at credit_at × Fifteen debit × Fifteen credit }
    ensures { (result ≡ weighed (amounts_put debit_at credit_at debit credit flow.old))
        × (flow.new ≡ bytes_after result (refreshed (amounts_put debit_at credit_at debit credit flow.old)) flow.old) }
{
    let old_debit = bytes_at(flow, debit_at);
    let old_credit = bytes_at(flow, credit_at);
    put_amounts(flow, debit_at, credit_at, debit, credit);
    let surveyed = rebalance::survey(flow);
    let answer = outcome(surveyed.negative, surveyed.fits);
    if let Ok(()) = answer {
        rebalance::rebalance(flow);
        return answer;
    }
    put_back(flow, debit_at, credit_at, old_debit, old_credit);
    answer
}

// 22, 9, 14 and 23, of new amounts for the k-th record, a line of section s.
fn try_line(flow: &mut [u8], k: usize, s: usize, debit: u64, credit: u64) -> Result<(), Refusal>
    requires { Whole flow.old × KthLine flow.old k s }
    ensures { (result ≡ tried k s debit credit flow.old)
        × (flow.new ≡ bytes_after result (refreshed (replaced k s debit credit flow.old)) flow.old) }
{
    if Amount::LARGEST < debit || Amount::LARGEST < credit {
        return Err(Refusal::LARGE_AMOUNT);
    }
    if amounts::line_right(s, debit, credit) {
        let section = layout::section_at(s);
        let start = (k - 1) * Flow::RECORD;
        return replace(
            flow,
            start + section.debit,
            start + section.credit,
            debit,
            credit,
        );
    }
    Err(Refusal::UNFIT_AMOUNTS)
}

// Corrects one line of a flow: the delega's number, the subtype, the place in the section, and the new debit and credit. It is made, or the answer is the refusal.
pub fn correct(
    flow: &mut [u8],
    delega: u64,
    subtype: u64,
    nth: u64,
    debit: u64,
    credit: u64,
) -> Result<(), Refusal>
    ensures { (result ≡ correction_of flow.old delega subtype nth debit credit)
        × (flow.new ≡ corrected_bytes flow.old delega subtype nth debit credit) }
{
    let k = find::find(flow, delega, subtype, nth)?;
    try_line(flow, k, section_of(subtype), debit, credit)
}
