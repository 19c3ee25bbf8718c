// The ten section sums of a flow's lines, kept in a record beside it.
#![tactic(auto)]

ghost use Rattle.std.specs.Prelude.{◌≡◌, ◌≤◌, length};
ghost use Rattle.sums.specs.LineSums.{kept_of, same_sums};
ghost use Rattle.sums.specs.Inner.{matched};

use amounts::Sums;
use layout::Flow;

// The record: the debits and the credits of each of the five sections.
#[derive(Clone, Copy)]
pub struct KeptSums {
    pub sums: [Sums; 5],
}

// The record of a flow, added up over its lines.
pub fn of_lines(flow: &[u8]) -> KeptSums
    requires { length flow.now ≤ 65520 }
    ensures { result ≡ kept_of flow.now }
{
    let mut st = rules::start();
    for rec in flow.chunks_exact(Flow::RECORD) {
        let kind = records::kind_in(rec);
        st = rules::next_state(st, kind, records::line_sums(rec, kind));
    }
    let sums = st.money.flow;
    KeptSums { sums }
}

// Whether two records have the same ten sums.
fn same(a: KeptSums, b: KeptSums) -> bool
    ensures { result ≡ same_sums a.sums b.sums }
{
    // Kept: no `==`, since the edits credits_not_compared and credits_not_compared_in_both leave the credits out here.
    for (x, y) in a.sums.iter().zip(b.sums.iter()) {
        if x.debit != y.debit || x.credit != y.credit {
            return false;
        }
    }
    true
}

// Whether a flow is no longer than one may be, and the record stands for it: its sums are those of the flow's lines. A longer one is not gone through.
pub fn matches(kept: KeptSums, flow: &[u8]) -> bool
    ensures { result ≡ matched kept flow.now }
{
    flow.len() <= Flow::MOST_BYTES && same(kept, of_lines(flow))
}
