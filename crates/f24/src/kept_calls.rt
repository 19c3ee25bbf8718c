// The calls of the library that take the record of ten sums kept beside a flow, in a room of numbers that the caller lends.
ghost use Rattle.std.specs.Prelude.{◌≡◌};
ghost use Rattle.f24.specs.LinkedKept.{kept_code, kept_record, kept_answer};
ghost use Rattle.f24.specs.LinkedKept.{correct_kept_code, correct_kept_flow, correct_kept_record, correct_kept_answer};
ghost use Rattle.f24.specs.LinkedKept.{rebalance_kept_code, rebalance_kept_flow, rebalance_kept_list, rebalance_kept_record, rebalance_kept_answer};
ghost use Rattle.f24.specs.LinkedKept.{drop_kept_code, drop_kept_flow, drop_kept_record, drop_kept_answer};

use crate::NO_ROOM;
use sums::KeptSums;

// How many numbers a record is.
const SUMS_ROOM: usize = 10;

// How many numbers each answer needs room for.
const ANSWER_ROOM: usize = 2;

// Judges a flow. Where it is accepted, the record of its ten sums is written, and nothing to the answer.
pub fn f24_kept(flow: &[u8], kept: &mut [u64], answer: &mut [u64]) -> u64
    ensures { (result ≡ kept_code flow.now kept.old answer.old)
        × (kept.new ≡ kept_record flow.now kept.old answer.old)
        × (answer.new ≡ kept_answer flow.now kept.old answer.old) }
{
    if kept.len() < SUMS_ROOM || answer.len() < ANSWER_ROOM {
        return NO_ROOM;
    }
    let made = kept::keep(flow);
    if let Err(why) = made.verdict {
        return answers::put_refusal(answer, why);
    }
    answers::put_sums(kept, made.kept.sums);
    0
}

// Gives one line of a flow a new debit and credit. Where that is done, the record of the flow as it is then is written, and nothing to the answer.
pub fn f24_correct_kept(
    flow: &mut [u8],
    delega: u64,
    subtype: u64,
    nth: u64,
    debit: u64,
    credit: u64,
    kept: &mut [u64],
    answer: &mut [u64],
) -> u64
    ensures { (result ≡ correct_kept_code flow.old delega subtype nth debit credit kept.old answer.old)
        × (flow.new ≡ correct_kept_flow flow.old delega subtype nth debit credit kept.old answer.old)
        × (kept.new ≡ correct_kept_record flow.old delega subtype nth debit credit kept.old answer.old)
        × (answer.new ≡ correct_kept_answer flow.old delega subtype nth debit credit kept.old answer.old) }
{
    if kept.len() < SUMS_ROOM || answer.len() < ANSWER_ROOM {
        return NO_ROOM;
    }
    let sums = state::sums_at(kept, 0);
    let done = kept::correct_kept(flow, delega, subtype, nth, debit, credit, KeptSums { sums });
    match done.answer {
        Ok(()) => {
            answers::put_sums(kept, done.kept.sums);
            0
        }
        Err(why) => answers::put_refusal(answer, why),
    }
}

// Rebalances a flow, and lists each field that changed by record and start, two numbers for each. The answer is how many these are.
pub fn f24_rebalance_kept(
    flow: &mut [u8],
    changed: &mut [u64],
    kept: &mut [u64],
    answer: &mut [u64],
) -> u64
    ensures { (result ≡ rebalance_kept_code flow.old changed.old kept.old answer.old)
        × (flow.new ≡ rebalance_kept_flow flow.old changed.old kept.old answer.old)
        × (changed.new ≡ rebalance_kept_list flow.old changed.old kept.old answer.old)
        × (kept.new ≡ rebalance_kept_record flow.old changed.old kept.old answer.old)
        × (answer.new ≡ rebalance_kept_answer flow.old changed.old kept.old answer.old) }
{
    if kept.len() < SUMS_ROOM || answer.len() < ANSWER_ROOM {
        return NO_ROOM;
    }
    let sums = state::sums_at(kept, 0);
    let done = kept::rebalance_kept(flow, changed, KeptSums { sums });
    match done.answer {
        Ok(count) => {
            answers::put_sums(kept, done.kept.sums);
            state::put(answer, &[count as u64]);
            0
        }
        Err(why) => answers::put_refusal(answer, why),
    }
}

// Drops the deleghe with these numbers from a flow. The answer is the new length of the flow; the record of the flow that is left is written.
pub fn f24_drop_kept(flow: &mut [u8], numbers: &[u64], kept: &mut [u64], answer: &mut [u64]) -> u64
    ensures { (result ≡ drop_kept_code flow.old numbers.now kept.old answer.old)
        × (flow.new ≡ drop_kept_flow flow.old numbers.now kept.old answer.old)
        × (kept.new ≡ drop_kept_record flow.old numbers.now kept.old answer.old)
        × (answer.new ≡ drop_kept_answer flow.old numbers.now kept.old answer.old) }
{
    if kept.len() < SUMS_ROOM || answer.len() < ANSWER_ROOM {
        return NO_ROOM;
    }
    let sums = state::sums_at(kept, 0);
    let done = kept::drop_kept(flow, numbers, KeptSums { sums });
    match done.answer {
        Ok(length) => {
            answers::put_sums(kept, done.kept.sums);
            state::put(answer, &[length as u64]);
            0
        }
        Err(why) => answers::put_refusal(answer, why),
    }
}
