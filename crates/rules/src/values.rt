// Checks 8 to 20 and 26, of a record whose numeric fields have been read.
ghost use Rattle.std.specs.Prelude.{◌≡◌, ◌<◌, length, get_or};
ghost use Rattle.layout.specs.Sections.{section_at};
ghost use Rattle.layout.specs.Fields.{bytes_of, tax_code, support_name};
ghost use Rattle.amounts.specs.Names.{same_bytes};
ghost use Rattle.amounts.specs.Outcomes.{first};
ghost use Rattle.taxcode.specs.TaxCodes.{code_right};
ghost use Rattle.rules.specs.Checks.{carried, number_fault, tail_name};
ghost use Rattle.rules.specs.Stored.{section_sums};
ghost use Rattle.rules.specs.Values.{head_on, balance_end, balance_on, payment_on, tail_on, code_on, amounts_on, values_on};

use crate::State;
use amounts::{Sums, apart_of, date_right, final_of, line_fault, name_right, sign_of};
use layout::{Kind, Part, Position};
use refusal::Fault;
use taxcode::code_right;

// Check 8, of a record that carries n after d records 10.
#[tactic(auto, unfolding(crate::specs::Checks::number_fault))]
pub fn number_fault(d: u64, k: Kind, n: u64) -> Result<(), Fault>
    requires { d < 1000 }
    ensures { result ≡ number_fault d k n }
{
    match k {
        Kind::Head | Kind::Tail | Kind::Unknown => Ok(()),
        Kind::Taxpayer => carries(d + 1, n),
        // Kept: the six arms in one, `_ => carries(d, n)`, were tried and cost 11 instructions a record more; an or-pattern of the six is the same one arm.
        Kind::Domicile => carries(d, n),
        Kind::Line(_) => carries(d, n),
        Kind::Balance(_) => carries(d, n),
        Kind::Payment => carries(d, n),
        Kind::Receipt => carries(d, n),
        Kind::Addressee => carries(d, n),
    }
}

fn carries(expected: u64, n: u64) -> Result<(), Fault>
    ensures { result ≡ carried expected n }
{
    if n == expected {
        Ok(())
    } else {
        Err(Fault {
            number: 8,
            position: Position::DELEGA_NUMBER,
        })
    }
}

// Checks 12 and 13, of the character at the sign's column and the stored balance.
fn balance_end(s: usize, t: Sums, sign: u8, balance: u64) -> Result<(), Fault>
    ensures { result ≡ balance_end s t sign balance }
{
    let section = layout::section_at(s);
    if sign != sign_of(t.debit, t.credit) {
        return Err(Fault {
            number: 12,
            position: section.sign + 1,
        });
    }
    if balance != apart_of(t.debit, t.credit) {
        return Err(Fault {
            number: 13,
            position: section.balance + 1,
        });
    }
    Ok(())
}

// Checks 10 to 13, of a balance record of section s whose lines have the sums t.
fn balance_fault(s: usize, t: Sums, vs: [u64; 4], sign: u8) -> Result<(), Fault>
    ensures { result ≡ balance_on s t vs sign }
{
    let section = layout::section_at(s);
    if section.totals {
        if vs[1] != t.debit {
            return Err(Fault {
                number: 10,
                position: section.total_debit + 1,
            });
        }
        if vs[2] != t.credit {
            return Err(Fault {
                number: 11,
                position: section.total_credit + 1,
            });
        }
        return balance_end(s, t, sign, vs[3]);
    }
    balance_end(s, t, sign, vs[1])
}

// Checks 14 and 15, of a 50-01 that stores v.
fn payment_fault(t: Sums, v: u64) -> Result<(), Fault>
    ensures { result ≡ payment_on t v }
{
    if t.debit < t.credit {
        return Err(Fault {
            number: 14,
            position: Position::TYPE,
        });
    }
    if v == final_of(t) {
        return Ok(());
    }
    Err(Fault {
        number: 15,
        position: Position::FINAL_BALANCE,
    })
}

// Checks 16 and 17, of the head.
#[tactic(auto, unfolding(crate::specs::Values::head_on, crate::specs::Checks::head_name, crate::specs::Checks::date_fault))]
fn head_fault(name: &[u8], date: u64) -> Result<(), Fault>
    ensures { result ≡ head_on name.now date }
{
    if !name_right(name) {
        return Err(Fault {
            number: 16,
            position: Position::SUPPORT_NAME,
        });
    }
    if !date_right(date) {
        return Err(Fault {
            number: 17,
            position: Position::CREATION_DATE,
        });
    }
    Ok(())
}

// Checks 18 to 20, of the tail.
#[tactic(auto, unfolding(crate::specs::Values::tail_on))]
fn tail_fault(st: State, vs: [u64; 4]) -> Result<(), Fault>
    requires { st.seen < 1000 }
    ensures { result ≡ tail_on st vs }
{
    if vs[0] != st.deleghe {
        return Err(Fault {
            number: 18,
            position: Position::TAIL_DELEGHE,
        });
    }
    if vs[2] != (st.seen + 1) as u64 {
        return Err(Fault {
            number: 19,
            position: Position::TAIL_RECORDS,
        });
    }
    if vs[1] != st.money.total {
        return Err(Fault {
            number: 20,
            position: Position::TAIL_SUM,
        });
    }
    Ok(())
}

// The sums of section s in the open delega.
pub fn section_sums(st: State, s: usize) -> Sums
    ensures { result ≡ section_sums st s }
{
    match s {
        0 => st.money.delega.sections[0],
        1 => st.money.delega.sections[1],
        2 => st.money.delega.sections[2],
        3 => st.money.delega.sections[3],
        4 => st.money.delega.sections[4],
        _ => Sums::ZERO,
    }
}

// Checks 16 and 17, of the head whose date has been read.
pub fn head_record(rec: &[u8], date: u64) -> Result<(), Fault>
    requires { length rec.now ≡ 120 }
    ensures { result ≡ head_on (bytes_of rec.now support_name) date }
{
    head_fault(&rec[Part::SUPPORT_NAME..Part::SUPPORT_NAME_END], date)
}

// Whether the code of a record 10 can exist. It has two callers and answers a bool, so that the judge's loop keeps its outcomes in registers.
pub fn has_code(rec: &[u8]) -> bool
    requires { length rec.now ≡ 120 }
    ensures { result ≡ code_right (bytes_of rec.now tax_code) }
{
    code_right(&rec[Part::TAX_CODE..Part::TAX_CODE_END])
}

// Check 26, of a record 10 whose code can exist or not.
pub fn code_fault(right: bool) -> Result<(), Fault>
    ensures { result ≡ code_on right }
{
    if right {
        return Ok(());
    }
    Err(Fault {
        number: 26,
        position: Position::TAX_CODE,
    })
}

fn balance_record(st: State, s: usize, rec: &[u8], vs: [u64; 4]) -> Result<(), Fault>
    requires { length rec.now ≡ 120 }
    ensures { result ≡ balance_on s (section_sums st s) vs (get_or rec.now (section_at s).sign 0) }
{
    let sign = rec[layout::section_at(s).sign];
    balance_fault(s, section_sums(st, s), vs, sign)
}

// Whether the name in a record is the one given: three words, the last of which begins within the second.
fn same_name(rec: &[u8], name: &[u8]) -> bool
    requires { (length rec.now ≡ 120) × (length name.now ≡ 20) }
    ensures { result ≡ same_bytes (bytes_of rec.now support_name) name.now }
{
    words::word_at(rec, Part::SUPPORT_NAME) == words::word_at(name, 0)
        && words::word_at(rec, Part::SUPPORT_NAME + 8) == words::word_at(name, 8)
        && words::word_at(rec, Part::SUPPORT_NAME + 12) == words::word_at(name, 12)
}

fn tail_record(st: State, name: &[u8], rec: &[u8], vs: [u64; 4]) -> Result<(), Fault>
    requires { (length rec.now ≡ 120) × (length name.now ≡ 20) × (st.seen < 1000) }
    ensures { result ≡ first (tail_name name.now (bytes_of rec.now support_name)) (tail_on st vs) }
{
    if same_name(rec, name) {
        return tail_fault(st, vs);
    }
    Err(Fault {
        number: 16,
        position: Position::SUPPORT_NAME,
    })
}

// Checks 9 to 20 and 26, of a record of kind k whose numeric fields hold the values vs.
#[tactic(auto, unfolding(crate::specs::Values::amounts_on))]
fn amounts_fault(st: State, name: &[u8], k: Kind, rec: &[u8], vs: [u64; 4]) -> Result<(), Fault>
    requires { (length rec.now ≡ 120) × (length name.now ≡ 20) × (st.seen < 1000) }
    ensures { result ≡ amounts_on name.now st k vs rec.now }
{
    match k {
        Kind::Head => head_record(rec, vs[0]),
        Kind::Taxpayer => code_fault(has_code(rec)),
        Kind::Line(s) => line_fault(s, vs[1], vs[2]),
        Kind::Balance(s) => balance_record(st, s, rec, vs),
        Kind::Payment => payment_fault(st.money.delega.all, vs[1]),
        Kind::Tail => tail_record(st, name, rec, vs),
        Kind::Domicile | Kind::Receipt | Kind::Addressee | Kind::Unknown => Ok(()),
    }
}

// Checks 8 to 20 and 26.
pub fn values_fault(st: State, name: &[u8], k: Kind, rec: &[u8], vs: [u64; 4]) -> Result<(), Fault>
    requires { (length rec.now ≡ 120) × (length name.now ≡ 20) × (st.seen < 1000) × (st.deleghe < 1000) }
    ensures { result ≡ values_on name.now st k vs rec.now }
{
    number_fault(st.deleghe, k, vs[0])?;
    amounts_fault(st, name, k, rec, vs)
}
