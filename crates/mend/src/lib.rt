// A flow whose lines are good and whose totals aren't is rebalanced, and the fields that change are listed.
#![tactic(auto)]

ghost use Rattle.std.specs.Prelude.{◌≡◌, length};
ghost use Rattle.judge.specs.Plain.{Whole};
ghost use Rattle.rebalance.specs.Rebalance.{refreshed};
ghost use Rattle.changes.specs.Changes.{changes_of};
ghost use Rattle.mend.specs.Mending.{remaining, listed_in, weighed, flow_by, list_by, mending_of, mended_flow, mended_list};
ghost use Rattle.mend.specs.Inner.{Copied};

use layout::Flow;
use refusal::Refusal;

// Rebalances the copy of a flow, and where the list has room for all that changes, writes the list and the flow. The fields are counted first, with a list of no
// room, so that a list which is too short stays as it came.
fn replace(flow: &mut [u8], copy: &mut [u8], list: &mut [u64]) -> Result<usize, Refusal>
    requires { Copied flow.old copy.old }
    ensures { (result ≡ listed_in (length list.old) (length (changes_of flow.old)))
        × (flow.new ≡ flow_by result (refreshed flow.old) flow.old)
        × (list.new ≡ list_by result (changes_of flow.old) list.old) }
{
    rebalance::rebalance(copy);
    let mut none = [0u64; 0];
    let count = changes::list_changes(flow, copy, &mut none);
    if list.len() / 2 < count {
        return Err(Refusal::SHORT_LIST);
    }
    changes::list_changes(flow, copy, list);
    text::put_part(flow, 0, copy);
    Ok(count)
}

// 23, then 27, of a flow of whole records. It is worked out in memory of the call's own, so that a refusal leaves the flow as it came.
fn weigh(flow: &mut [u8], list: &mut [u64]) -> Result<usize, Refusal>
    requires { Whole flow.old }
    ensures { (result ≡ weighed (length list.old) flow.old)
        × (flow.new ≡ flow_by result (refreshed flow.old) flow.old)
        × (list.new ≡ list_by result (changes_of flow.old) list.old) }
{
    if rebalance::survey(flow).fits {
        let n = flow.len();
        let mut copy = [0u8; Flow::MOST_BYTES];
        text::put_part(&mut copy, 0, flow);
        return replace(flow, &mut copy[..n], list);
    }
    Err(Refusal::NO_FIT)
}

// The first fault of a flow that no rewriting of its totals mends: 1 and 2 by its length, and then the lenient judgement of its records.
pub fn first_remaining(flow: &[u8]) -> Result<(), Refusal>
    ensures { result ≡ remaining flow.now }
{
    let n = flow.len();
    if Flow::MOST_BYTES < n {
        return Err(Refusal::LONG_FLOW);
    }
    if n == 0 || n % Flow::RECORD != 0 {
        return Err(Refusal::NO_WHOLE_RECORDS);
    }
    lenient::judge_kept(flow, None)
}

// Rebalances a flow in place: every total, sign, balance, final balance and tail value is written from the lines, and each field that changes is listed by record
// and start, two numbers of the list for each. The answer is the number of fields that changed, or the refusal.
pub fn mend(flow: &mut [u8], list: &mut [u64]) -> Result<usize, Refusal>
    ensures { (result ≡ mending_of flow.old list.old)
        × (flow.new ≡ mended_flow flow.old list.old)
        × (list.new ≡ mended_list flow.old list.old) }
{
    first_remaining(flow)?;
    weigh(flow, list)
}
