// A record V of the F24 EP form, which carries the accounts ("dati contabili") of one paper form: its 28 rows and its final balance.
#![tactic(auto)]

ghost use Rattle.std.specs.Prelude.{◌≡◌, ◌+◌, ◌<◌, length};
ghost use Rattle.ep_accounts.specs.Accounts.{row_count, debit_of, debits_in, balance_in, accounts_in};

use text::DigitsError;

// How long a record is, and how many rows a V has.
pub const RECORD: usize = 1900;

const ROWS: usize = 28;

// The type of a row that is not used.
const BLANK: u8 = 32;

// Where the first row starts, how long a row is, and where its debit starts in it.
const FIRST_ROW: usize = 99;

const ROW: usize = 56;

const DEBIT: usize = 41;

// Where the final balance starts, and where it ends.
const BALANCE: usize = 1787;

const BALANCE_END: usize = 1802;

// What is wrong with the accounts of a V: a debit or the final balance is no number, or the balance is not the sum.
#[derive(Clone, Copy, PartialEq, Eq)]
pub enum AccountsError {
    NonDigit,
    Unequal,
}

// What the row with an index, counted from 0, adds. The debit of an unused row is not read, and adds nothing.
fn debit_of(rec: &[u8], k: usize) -> Result<u64, DigitsError>
    requires { (length rec.now ≡ 1900) × (k < row_count) }
    ensures { result ≡ debit_of rec.now k }
{
    let at = FIRST_ROW + ROW * k;
    if rec[at] == BLANK {
        return Ok(0);
    }
    text::number(&rec[at + DEBIT..at + ROW])
}

// The sum of the debits of the used rows.
fn debits_in(rec: &[u8]) -> Result<u64, AccountsError>
    requires { length rec.now ≡ 1900 }
    ensures { result ≡ debits_in rec.now }
{
    let mut sum: u64 = 0;
    for k in 0..ROWS {
        let Ok(debit) = debit_of(rec, k) else {
            return Err(AccountsError::NonDigit);
        };
        sum += debit;
    }
    Ok(sum)
}

// The final balance.
fn balance_in(rec: &[u8]) -> Result<u64, DigitsError>
    requires { length rec.now ≡ 1900 }
    ensures { result ≡ balance_in rec.now }
{
    text::number(&rec[BALANCE..BALANCE_END])
}

// The accounts of a V: the sum of its used debits, which is its final balance, or what is wrong with them.
pub fn accounts_in(rec: &[u8]) -> Result<u64, AccountsError>
    requires { length rec.now ≡ 1900 }
    ensures { result ≡ accounts_in rec.now }
{
    let sum = debits_in(rec)?;
    let Ok(balance) = balance_in(rec) else {
        return Err(AccountsError::NonDigit);
    };
    if sum == balance {
        return Ok(sum);
    }
    Err(AccountsError::Unequal)
}
