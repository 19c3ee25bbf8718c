// What may stand where, and how many lines a section has: checks 4 and 6, and the stage after a record.
#![tactic(auto)]

ghost use Rattle.std.specs.Prelude.{◌≡◌, ◌<◌};
ghost use Rattle.order.specs.Stages.{stage_at};
ghost use Rattle.order.specs.Order.{next_stage, stands, section_stands, type_stands, full, fitting, standing};

use layout::{Kind, Position, RecordType};
use refusal::Fault;

// The stage in the order of records: what the last record was, and for a line or a balance of which section; the open section's lines.
#[derive(Clone, Copy)]
pub struct Stage {
    // Kept: the room between two calls of a judgement by portions holds the phase as a number, and `possible` of portion refuses the numbers above the last.
    pub phase: u8,
    pub section: usize,
    pub lines: u64,
}

impl Stage {
    pub const START: u8 = 0;

    pub const HEAD: u8 = 1;

    pub const TAXPAYER: u8 = 2;

    pub const DOMICILE: u8 = 3;

    pub const LINE: u8 = 4;

    pub const BALANCE: u8 = 5;

    pub const PAYMENT: u8 = 6;

    pub const RECEIPT: u8 = 7;

    pub const ADDRESSEE: u8 = 8;

    pub const TAIL: u8 = 9;
}

#[tactic(auto, unfolding(crate::specs::Order::stands))]
fn line_stands(p: Stage, s: usize) -> bool
    ensures { result ≡ stands p (Kind.Line s) }
{
    match p.phase {
        Stage::DOMICILE => true,
        Stage::LINE => s == p.section,
        Stage::BALANCE => p.section < s && s < 4,
        _ => false,
    }
}

// Whether a record of kind k may stand here, the most lines left aside.
#[tactic(auto, unfolding(crate::specs::Order::stands, text::specs::Among::among))]
fn may_stand(p: Stage, k: Kind) -> bool
    ensures { result ≡ stands p k }
{
    match k {
        Kind::Head => p.phase == Stage::START,
        Kind::Taxpayer => matches!(
            p.phase,
            Stage::HEAD | Stage::PAYMENT | Stage::RECEIPT | Stage::ADDRESSEE
        ),
        Kind::Domicile => p.phase == Stage::TAXPAYER,
        Kind::Line(s) => line_stands(p, s),
        Kind::Balance(s) => p.phase == Stage::LINE && s == p.section,
        Kind::Payment => p.phase == Stage::BALANCE,
        Kind::Receipt => p.phase == Stage::PAYMENT,
        Kind::Addressee => p.phase == Stage::RECEIPT,
        Kind::Tail => matches!(p.phase, Stage::PAYMENT | Stage::RECEIPT | Stage::ADDRESSEE),
        Kind::Unknown => false,
    }
}

#[tactic(auto, unfolding(crate::specs::Order::section_stands))]
fn section_stands(p: Stage, s: usize) -> bool
    ensures { result ≡ section_stands p s }
{
    may_stand(p, Kind::Line(s)) || may_stand(p, Kind::Balance(s))
}

fn forty_stands(p: Stage) -> bool
    ensures { result ≡ type_stands p RecordType.T40 }
{
    (0..5).any(|s| section_stands(p, s))
}

#[tactic(auto, unfolding(crate::specs::Order::type_stands))]
fn fifty_stands(p: Stage) -> bool
    ensures { result ≡ type_stands p RecordType.T50 }
{
    may_stand(p, Kind::Payment) || may_stand(p, Kind::Receipt) || may_stand(p, Kind::Addressee)
}

// Whether a record that may stand here has type t.
#[tactic(auto, unfolding(crate::specs::Order::type_stands))]
fn type_stands(p: Stage, t: RecordType) -> bool
    ensures { result ≡ type_stands p t }
{
    match t {
        RecordType::F4 => may_stand(p, Kind::Head),
        RecordType::T10 => may_stand(p, Kind::Taxpayer),
        RecordType::T20 => may_stand(p, Kind::Domicile),
        RecordType::T40 => forty_stands(p),
        RecordType::T50 => fifty_stands(p),
        RecordType::EF => may_stand(p, Kind::Tail),
        RecordType::NoType => false,
    }
}

#[tactic(auto, unfolding(crate::specs::Order::full))]
fn is_full(p: Stage, k: Kind) -> bool
    ensures { result ≡ full p k }
{
    let Kind::Line(s) = k else {
        return false;
    };
    layout::section_at(s).most_lines <= p.lines
}

// Whether a record of kind k passes checks 4 and 6.
#[tactic(auto, unfolding(crate::specs::Order::fitting))]
pub fn fits(p: Stage, k: Kind) -> bool
    ensures { result ≡ fitting p k }
{
    may_stand(p, k) && !is_full(p, k)
}

// Checks 4 and 6.
#[tactic(auto, unfolding(crate::specs::Order::standing))]
pub fn standing_of(p: Stage, t: RecordType, k: Kind) -> Result<(), Fault>
    ensures { result ≡ standing p t k }
{
    if may_stand(p, k) {
        if is_full(p, k) {
            return Err(Fault {
                number: 6,
                position: Position::SUBTYPE,
            });
        }
        return Ok(());
    }
    if type_stands(p, t) {
        return Err(Fault {
            number: 4,
            position: Position::SUBTYPE,
        });
    }
    Err(Fault {
        number: 4,
        position: Position::TYPE,
    })
}

// The stage after a record of kind k.
pub fn next_stage(p: Stage, k: Kind) -> Stage
    requires { p.lines < 1000 }
    ensures { result ≡ next_stage p k }
{
    match k {
        Kind::Head => staged(Stage::HEAD, 0, 0),
        Kind::Taxpayer => staged(Stage::TAXPAYER, 0, 0),
        Kind::Domicile => staged(Stage::DOMICILE, 0, 0),
        Kind::Line(s) => staged(Stage::LINE, s, p.lines + 1),
        Kind::Balance(s) => staged(Stage::BALANCE, s, 0),
        Kind::Payment => staged(Stage::PAYMENT, 0, 0),
        Kind::Receipt => staged(Stage::RECEIPT, 0, 0),
        Kind::Addressee => staged(Stage::ADDRESSEE, 0, 0),
        Kind::Tail => staged(Stage::TAIL, 0, 0),
        Kind::Unknown => p,
    }
}

fn staged(phase: u8, section: usize, lines: u64) -> Stage
    ensures { result ≡ stage_at phase section lines }
{
    Stage {
        phase,
        section,
        lines,
    }
}
