// The state of a judgement as numbers in room that is lent, so that a judgement may go on from them later.
#![tactic(auto)]

ghost use Rattle.std.specs.Prelude.{◌≡◌, ◌+◌, ◌<◌, ◌≤◌, length, get_or};
ghost use Rattle.state.specs.Numbers.{overlay, state_numbers, sums_at, state_of, state_in, Kept, kept_after};

use amounts::Sums;
use order::Stage;
use rules::{DelegaSums, Money, State};

// Writes numbers at the start of a room.
#[tactic(auto, unfolding(crate::specs::Numbers::overlay))]
pub fn put(room: &mut [u64], numbers: &[u64])
    requires { length numbers.now ≤ length room.old }
    ensures { room.new ≡ overlay numbers.now room.old }
{
    room[..numbers.len()].copy_from_slice(numbers);
}

// The numbers of a state.
fn state_numbers(st: State) -> [u64; 29]
    ensures { result ≡ state_numbers st }
{
    let sections = st.money.delega.sections;
    let flow = st.money.flow;
    [
        st.seen as u64,
        st.others as u64,
        st.deleghe,
        u64::from(st.stage.phase),
        st.stage.section as u64,
        st.stage.lines,
        st.money.total,
        st.money.delega.all.debit,
        st.money.delega.all.credit,
        sections[0].debit,
        sections[0].credit,
        sections[1].debit,
        sections[1].credit,
        sections[2].debit,
        sections[2].credit,
        sections[3].debit,
        sections[3].credit,
        sections[4].debit,
        sections[4].credit,
        flow[0].debit,
        flow[0].credit,
        flow[1].debit,
        flow[1].credit,
        flow[2].debit,
        flow[2].credit,
        flow[3].debit,
        flow[3].credit,
        flow[4].debit,
        flow[4].credit,
    ]
}

// A debit, and the credit behind it.
fn pair_at(numbers: &[u64], at: usize) -> Sums
    requires { at + 2 ≤ length numbers.now }
    ensures debit { result.debit ≡ get_or numbers.now at 0 }
    ensures credit { result.credit ≡ get_or numbers.now (at + 1) 0 }
{
    Sums {
        debit: numbers[at],
        credit: numbers[at + 1],
    }
}

// The sums of the five sections that stand from a place on.
#[tactic(auto, unfolding(crate::specs::Numbers::sums_at))]
pub fn sums_at(numbers: &[u64], at: usize) -> [Sums; 5]
    requires { at + 10 ≤ length numbers.now }
    ensures { result ≡ sums_at numbers.now at }
{
    [
        pair_at(numbers, at),
        pair_at(numbers, at + 2),
        pair_at(numbers, at + 4),
        pair_at(numbers, at + 6),
        pair_at(numbers, at + 8),
    ]
}

// The state that numbers say.
#[tactic(auto, unfolding(crate::specs::Numbers::state_of))]
fn state_of(kept: &[u64]) -> State
    requires { (length kept.now ≡ 29) × (get_or kept.now 3 0 < 256) }
    ensures { result ≡ state_of kept.now }
{
    State {
        stage: Stage {
            phase: kept[3] as u8,
            section: kept[4] as usize,
            lines: kept[5],
        },
        deleghe: kept[2],
        money: Money {
            delega: DelegaSums {
                sections: sums_at(kept, 9),
                all: pair_at(kept, 7),
            },
            flow: sums_at(kept, 19),
            total: kept[6],
        },
        seen: kept[0] as usize,
        others: kept[1] as usize,
    }
}

// The state that numbers say; where there are none, that before the first record.
pub fn state_in(kept: &[u64]) -> State
    requires { Kept kept.now }
    ensures { result ≡ state_in kept.now }
{
    if kept.is_empty() {
        rules::start()
    } else {
        state_of(kept)
    }
}

// Writes the numbers of a state to a room that has numbers.
pub fn keep(kept: &mut [u64], st: State)
    requires { Kept kept.old }
    ensures { kept.new ≡ kept_after kept.old st }
{
    if !kept.is_empty() {
        put(kept, &state_numbers(st));
    }
}
