// Cancelled deleghe are dropped from an accepted flow, in place.
#![tactic(auto)]

ghost use Rattle.std.specs.Prelude.{◌≡◌, length};
ghost use Rattle.close.specs.Closing.{spaced};
ghost use Rattle.dropping.specs.Dropping.{shortened, weighed, flow_by, dropping_of, dropped_flow};
ghost use Rattle.dropping.specs.Inner.{Judged, Droppable};

use refusal::Refusal;

// Closes a flow up over the deleghe that a list names, and sets its tail. The answer is the new length; spaces stand behind it.
fn shorten(flow: &mut [u8], numbers: &[u64]) -> usize
    requires { Droppable flow.old numbers.now }
    ensures { (result ≡ length (shortened flow.old numbers.now))
        × (flow.new ≡ spaced (shortened flow.old numbers.now) (length flow.old)) }
{
    let n = close::close_up(flow, numbers);
    rebalance::rebalance(&mut flow[..n]);
    n
}

// 21, then 28, of an accepted flow that has so many deleghe; else they are dropped. With each number that of a delega and named once, none is left where there are as
// many numbers as deleghe.
fn weigh(flow: &mut [u8], numbers: &[u64], deleghe: u64) -> Result<usize, Refusal>
    requires { Judged flow.old deleghe }
    ensures { (result ≡ weighed deleghe flow.old numbers.now)
        × (flow.new ≡ flow_by result (spaced (shortened flow.old numbers.now) (length flow.old)) flow.old) }
{
    let once = close::each_once(numbers, deleghe);
    let all = numbers.len() as u64 == deleghe;
    if !once {
        return Err(Refusal::NO_SUCH_LINE);
    }
    if all {
        return Err(Refusal::NO_DELEGA_LEFT);
    }
    Ok(shorten(flow, numbers))
}

// Drops the deleghe that a list names from a flow: the flow is closed up over them, the rest are numbered from 1, the tail is set, and spaces fill the room behind it. The answer is the new
// length of the flow, or the refusal.
pub fn drop_deleghe(flow: &mut [u8], numbers: &[u64]) -> Result<usize, Refusal>
    ensures { (result ≡ dropping_of flow.old numbers.now)
        × (flow.new ≡ dropped_flow flow.old numbers.now) }
{
    let judgement = judge::judge(flow);
    judgement.verdict?;
    weigh(flow, numbers, judgement.summary.deleghe)
}
