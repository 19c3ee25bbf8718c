// The checks of one record, and the state that the records before it have led to.
#![tactic(auto)]

mod step;
mod values;

ghost use Rattle.std.specs.Prelude.{◌≡◌};
ghost use Rattle.rules.specs.State.{zero_delega, start_state};

use amounts::Sums;
use order::Stage;
pub use step::{next_deleghe, next_state};
pub use values::{code_fault, has_code, head_record, number_fault, section_sums, values_fault};

// The sums of the open delega: of each section, and of all its lines.
#[derive(Clone, Copy)]
pub struct DelegaSums {
    pub sections: [Sums; 5],
    pub all: Sums,
}

impl DelegaSums {
    // The sums that every delega starts with.
    pub fn zero() -> Self
        ensures { result ≡ zero_delega }
    {
        DelegaSums {
            sections: [Sums::ZERO; 5],
            all: Sums::ZERO,
        }
    }
}

// What the lines have come to: the open delega's sums, the flow's sums of each section, the sum of final balances.
#[derive(Clone, Copy)]
pub struct Money {
    pub delega: DelegaSums,
    pub flow: [Sums; 5],
    pub total: u64,
}

// What the records so far have established: among it how many deleghe there have been, how many records, and how many of these are no lines.
#[derive(Clone, Copy)]
pub struct State {
    pub stage: Stage,
    pub deleghe: u64,
    pub money: Money,
    pub seen: usize,
    pub others: usize,
}

// Before the first record.
#[tactic(auto, unfolding(crate::specs::State::start_state))]
pub fn start() -> State
    ensures { result ≡ start_state }
{
    State {
        stage: Stage {
            phase: Stage::START,
            section: 0,
            lines: 0,
        },
        deleghe: 0,
        money: Money {
            delega: DelegaSums::zero(),
            flow: [Sums::ZERO; 5],
            total: 0,
        },
        seen: 0,
        others: 0,
    }
}
