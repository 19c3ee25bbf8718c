// The rules on what a field holds: amounts, dates and support names.
#![tactic(auto)]

mod dates;
mod names;

ghost use Rattle.std.specs.Prelude.{◌≡◌};
ghost use Rattle.amounts.specs.Amounts.{sign_of, apart, final_of, credit_right, line_right, line_fault};

pub use dates::date_right;
pub use names::{name_right, same_bytes};
use refusal::Fault;

// A debit and a credit sum.
#[derive(Clone, Copy)]
pub struct Sums {
    pub debit: u64,
    pub credit: u64,
}

impl Sums {
    pub const ZERO: Self = Sums {
        debit: 0,
        credit: 0,
    };
}

// The sign of a section whose sums are d and c: N or P.
#[tactic(auto, unfolding(crate::specs::Amounts::sign_of))]
pub fn sign_of(d: u64, c: u64) -> u8
    ensures { result ≡ sign_of d c }
{
    if d < c { b'N' } else { b'P' }
}

// The balance of a section, without sign.
#[tactic(auto, unfolding(crate::specs::Amounts::apart))]
pub fn apart_of(d: u64, c: u64) -> u64
    ensures { result ≡ apart d c }
{
    d.abs_diff(c)
}

// The final balance of a delega, where it is not negative.
#[tactic(auto, unfolding(crate::specs::Amounts::final_of))]
pub fn final_of(t: Sums) -> u64
    ensures { result ≡ final_of t }
{
    t.debit.saturating_sub(t.credit)
}

#[tactic(auto, unfolding(crate::specs::Amounts::credit_right))]
fn credit_right(s: usize, c: u64) -> bool
    ensures { result ≡ credit_right s c }
{
    layout::section_at(s).credit_allowed || c == 0
}

// Whether a line of section s may carry a debit and a credit.
#[tactic(auto, unfolding(crate::specs::Amounts::line_right))]
pub fn line_right(s: usize, d: u64, c: u64) -> bool
    ensures { result ≡ line_right s d c }
{
    // Kept: `(d != 0 || c != 0) && credit_right(s, c)` was tried and costs 4 instructions a record more where `judge_from` is a function of its own.
    if d == 0 && c == 0 {
        return false;
    }
    credit_right(s, c)
}

// Check 9.
#[tactic(auto, unfolding(crate::specs::Amounts::line_fault))]
pub fn line_fault(s: usize, d: u64, c: u64) -> Result<(), Fault>
    ensures { result ≡ line_fault s d c }
{
    if line_right(s, d, c) {
        return Ok(());
    }
    let section = layout::section_at(s);
    if d == 0 && c == 0 {
        return Err(Fault {
            number: 9,
            position: section.debit + 1,
        });
    }
    Err(Fault {
        number: 9,
        position: section.credit + 1,
    })
}
