// The state after a record.
ghost use Rattle.std.specs.Prelude.{◌≡◌, ◌<◌};
ghost use Rattle.rules.specs.State.{no_sums};
ghost use Rattle.rules.specs.Bounds.{SumsBelow, MoneyBelow, Small, Room};
ghost use Rattle.rules.specs.Step.{added, added_at, next_deleghe, next_others, next_money, next_of};

use crate::{DelegaSums, Money, State};
use amounts::{Sums, final_of};
use layout::Kind;

// How many deleghe have been opened after a record of kind k.
pub fn next_deleghe(d: u64, k: Kind) -> u64
    requires { d < 1000 }
    ensures { result ≡ next_deleghe d k }
{
    match k {
        Kind::Taxpayer => d + 1,
        _ => d,
    }
}

// How many records that are no lines there have been after a record of kind k. They are counted, and not
// the lines: the judge takes fewer instructions so (docs/BENCH.md).
fn next_others(n: usize, k: Kind) -> usize
    requires { n < 1000 }
    ensures { result ≡ next_others n k }
{
    match k {
        Kind::Line(_) => n,
        _ => n + 1,
    }
}

// A line's amounts added to a debit and a credit sum.
fn plus(t: Sums, x: Sums) -> Sums
    requires { Room t × Small x }
    ensures { result ≡ added t x }
{
    Sums {
        debit: t.debit + x.debit,
        credit: t.credit + x.credit,
    }
}

// A line's amounts added to the sums of its section: one element changed. The index is constant in each way out: an array that is changed at a
// variable index is kept in memory and copied wherever a state goes.
#[tactic(auto, unfolding(crate::specs::Step::added_at))]
fn plus_at(sums: [Sums; 5], s: usize, x: Sums) -> [Sums; 5]
    requires { SumsBelow 1_000_000_000_000_000_000 sums × Small x }
    ensures { result ≡ added_at sums s x }
{
    let mut out = sums;
    match s {
        0 => out[0] = plus(sums[0], x),
        1 => out[1] = plus(sums[1], x),
        2 => out[2] = plus(sums[2], x),
        3 => out[3] = plus(sums[3], x),
        4 => out[4] = plus(sums[4], x),
        _ => {}
    }
    out
}

fn line_money(m: Money, s: usize, x: Sums) -> Money
    requires { MoneyBelow 1_000_000_000_000_000_000 m × Small x }
    ensures { result ≡ next_money m (Kind.Line s) x }
{
    Money {
        delega: DelegaSums {
            sections: plus_at(m.delega.sections, s, x),
            all: plus(m.delega.all, x),
        },
        flow: plus_at(m.flow, s, x),
        ..m
    }
}

#[tactic(auto, unfolding(amounts::specs::Amounts::final_of))]
fn payment_money(m: Money) -> Money
    requires { MoneyBelow 1_000_000_000_000_000_000 m }
    ensures { result ≡ next_money m Kind.Payment no_sums }
{
    Money {
        delega: DelegaSums::zero(),
        total: m.total + final_of(m.delega.all),
        ..m
    }
}

fn opened_money(m: Money) -> Money
    ensures { result ≡ next_money m Kind.Taxpayer no_sums }
{
    Money {
        delega: DelegaSums::zero(),
        ..m
    }
}

fn next_money(m: Money, k: Kind, x: Sums) -> Money
    requires { MoneyBelow 1_000_000_000_000_000_000 m × Small x }
    ensures { result ≡ next_money m k x }
{
    match k {
        Kind::Taxpayer => opened_money(m),
        Kind::Line(s) => line_money(m, s, x),
        Kind::Payment => payment_money(m),
        _ => m,
    }
}

// The state after a record of kind k, which, if it is a line, has the amounts x.
pub fn next_state(st: State, k: Kind, x: Sums) -> State
    requires money_below { MoneyBelow 1_000_000_000_000_000_000 st.money × Small x }
    requires lines_bound { (st.stage.lines < 1000) × (st.deleghe < 1000) × (st.others < 1000) × (st.seen < 1000) }
    ensures { result ≡ next_of st k x }
{
    State {
        stage: order::next_stage(st.stage, k),
        deleghe: next_deleghe(st.deleghe, k),
        others: next_others(st.others, k),
        money: next_money(st.money, k, x),
        seen: st.seen + 1,
    }
}
