// The records M and V of the F24 EP form, one behind the other: judged record by record, all of them lent at once, or piece by piece as they are read.
#![tactic(auto)]

mod stream;

ghost use Rattle.std.specs.Prelude.{◌≡◌, ◌<◌, length};
ghost use Rattle.refusal.specs.Refusals.{refusal};
ghost use Rattle.ep.specs.Payments.{kind_of, total_in, no_tally, closing, accounts_fault, v_fault, after_other, added, with_accounts, with_payment, with_other, stepped, ended, size_right, judged};
ghost use Rattle.ep.specs.declared.Kind.TheVariants.{RecordM, RecordV, OtherRecord};
ghost use Rattle.ep.specs.Bounds.{Small};

use ep_accounts::{AccountsError, RECORD};
use refusal::Refusal;
pub use stream::{answered, start, take};

// The most records, and the most bytes that they have.
pub const MOST_RECORDS: usize = 10000;

const MOST_BYTES: usize = RECORD * MOST_RECORDS;

// Where the total of an M starts, and where it ends.
const TOTAL_START: usize = 1872;

const TOTAL_END: usize = 1887;

// What a record is.
#[derive(Clone, Copy)]
pub enum Kind {
    RecordM,
    RecordV,
    OtherRecord,
}

// What is answered of records that break no check: the count of M and the sum of their totals.
#[derive(Clone, Copy, PartialEq, Eq)]
pub struct Payments {
    pub count: u64,
    pub sum: u64,
}

// What the records so far have established: how many they are, how many of them are M and what all V add up to; and of the last M its number, whether a V has
// followed it, what those that have add up to, and what its own total says.
#[derive(Clone, Copy)]
pub struct Tally {
    pub seen: usize,
    pub count: u64,
    pub sum: u64,
    pub at: usize,
    pub followed: bool,
    pub own: u64,
    pub total: Option<u64>,
}

// What a record comes to.
#[derive(Clone, Copy)]
pub struct Step {
    pub tally: Tally,
    pub outcome: Result<(), Refusal>,
}

// What pieces of the records, one behind the other, have come to: whether their lengths are those of records and they are not too many, how many they are, the first fault and, up to
// there, what they have established.
#[derive(Clone, Copy)]
pub struct Course {
    pub fits: bool,
    pub records: usize,
    pub tally: Tally,
    pub outcome: Result<(), Refusal>,
}

// Before the first record.
fn no_tally() -> Tally
    ensures { result ≡ no_tally }
{
    Tally {
        seen: 0,
        count: 0,
        sum: 0,
        at: 0,
        followed: false,
        own: 0,
        total: None,
    }
}

// The kind of a record.
fn kind_of(rec: &[u8]) -> Kind
    requires { length rec.now ≡ 1900 }
    ensures { result ≡ kind_of rec.now }
{
    match rec[0] {
        b'M' => Kind::RecordM,
        b'V' => Kind::RecordV,
        _ => Kind::OtherRecord,
    }
}

// The total of an M.
fn total_in(rec: &[u8]) -> Option<u64>
    requires { length rec.now ≡ 1900 }
    ensures { result ≡ total_in rec.now }
{
    ep_total::read_total(&rec[TOTAL_START..TOTAL_END])
}

// The refusal that a failed check is: its number, the number of the record that it is told of, and position 0.
fn refused(number: u64, at: usize) -> Refusal
    ensures { result ≡ refusal number at 0 }
{
    Refusal {
        number,
        record: at,
        position: 0,
    }
}

// What is judged right behind the last V of an M, before the record with this number: that there was one, and the total.
fn closing(tally: Tally, behind: usize) -> Result<(), Refusal>
    ensures { result ≡ closing tally behind }
{
    if tally.count == 0 {
        return Ok(());
    }
    if !tally.followed {
        return Err(refused(31, behind));
    }
    if tally.total == Some(tally.own) {
        return Ok(());
    }
    Err(refused(33, tally.at))
}

// The fault of a V by its accounts.
fn accounts_fault(here: usize, accounts: Result<u64, AccountsError>) -> Result<(), Refusal>
    ensures { result ≡ accounts_fault here accounts }
{
    match accounts {
        Ok(_) => Ok(()),
        Err(AccountsError::NonDigit) => Err(refused(32, here)),
        Err(AccountsError::Unequal) => Err(refused(33, here)),
    }
}

// What is established with a V.
fn with_accounts(tally: Tally, accounts: Result<u64, AccountsError>) -> Tally
    requires { Small tally × (tally.seen < 10000) × (added accounts < 1000000000000000) }
    ensures { result ≡ with_accounts tally accounts }
{
    let more = accounts.unwrap_or(0);
    Tally {
        seen: tally.seen + 1,
        sum: tally.sum + more,
        followed: true,
        own: tally.own + more,
        ..tally
    }
}

// What is established with an M.
fn with_payment(tally: Tally, total: Option<u64>) -> Tally
    requires { Small tally × (tally.seen < 10000) }
    ensures { result ≡ with_payment tally total }
{
    let here = tally.seen + 1;
    Tally {
        seen: here,
        count: tally.count + 1,
        at: here,
        followed: false,
        own: 0,
        total,
        ..tally
    }
}

// What is established with any other record.
fn with_other(tally: Tally) -> Tally
    requires { tally.seen < 10000 }
    ensures { result ≡ with_other tally }
{
    Tally {
        seen: tally.seen + 1,
        ..tally
    }
}

// The fault of a V: it belongs to an M, and its accounts are right.
fn v_fault(tally: Tally, accounts: Result<u64, AccountsError>) -> Result<(), Refusal>
    requires { tally.seen < 10000 }
    ensures { result ≡ v_fault tally accounts }
{
    let here = tally.seen + 1;
    if tally.count == 0 {
        return Err(refused(31, here));
    }
    accounts_fault(here, accounts)
}

// The fault of a record that is neither M nor V, behind what is judged before it.
fn after_other(here: usize, before: Result<(), Refusal>) -> Result<(), Refusal>
    ensures { result ≡ after_other here before }
{
    before?;
    Err(refused(31, here))
}

// An M.
fn step_m(tally: Tally, rec: &[u8]) -> Step
    requires { (length rec.now ≡ 1900) × Small tally × (tally.seen < 10000) × (kind_of rec.now ≡ RecordM) }
    ensures { result ≡ stepped tally rec.now }
{
    let outcome = closing(tally, tally.seen + 1);
    let tally = with_payment(tally, total_in(rec));
    Step { tally, outcome }
}

// A V.
fn step_v(tally: Tally, rec: &[u8]) -> Step
    requires { (length rec.now ≡ 1900) × Small tally × (tally.seen < 10000) × (kind_of rec.now ≡ RecordV) }
    ensures { result ≡ stepped tally rec.now }
{
    let accounts = ep_accounts::accounts_in(rec);
    let outcome = v_fault(tally, accounts);
    let tally = with_accounts(tally, accounts);
    Step { tally, outcome }
}

// Any other record.
fn step_other(tally: Tally, rec: &[u8]) -> Step
    requires { (tally.seen < 10000) × (kind_of rec.now ≡ OtherRecord) }
    ensures { result ≡ stepped tally rec.now }
{
    let here = tally.seen + 1;
    let outcome = after_other(here, closing(tally, here));
    let tally = with_other(tally);
    Step { tally, outcome }
}

// What the record that comes next comes to.
fn step_by(tally: Tally, rec: &[u8]) -> Step
    requires { (length rec.now ≡ 1900) × Small tally × (tally.seen < 10000) }
    ensures { result ≡ stepped tally rec.now }
{
    match kind_of(rec) {
        Kind::RecordM => step_m(tally, rec),
        Kind::RecordV => step_v(tally, rec),
        Kind::OtherRecord => step_other(tally, rec),
    }
}

// The answer where no record is left.
fn ended(tally: Tally) -> Result<Payments, Refusal>
    requires { Small tally }
    ensures { result ≡ ended tally }
{
    closing(tally, tally.seen + 1)?;
    Ok(Payments {
        count: tally.count,
        sum: tally.sum,
    })
}

// Whether so many bytes are records, one at least and not too many.
fn size_right(len: usize) -> bool
    ensures { result ≡ size_right len }
{
    len != 0 && len <= MOST_BYTES && len % RECORD == 0
}

// Judges the records of the form: what they pay, or the refusal.
pub fn ep_judge(records: &[u8]) -> Result<Payments, Refusal>
    ensures { result ≡ judged records.now }
{
    if !size_right(records.len()) {
        return Err(Refusal::NO_FORM_RECORDS);
    }
    let count = records.len() / RECORD;
    let mut tally = no_tally();
    for i in 0..count {
        let at = i * RECORD;
        let done = step_by(tally, &records[at..at + RECORD]);
        done.outcome?;
        tally = done.tally;
    }
    ended(tally)
}
