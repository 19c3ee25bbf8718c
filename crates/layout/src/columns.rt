// The numeric fields of each kind of record, in the order of position.
ghost use Rattle.std.specs.Prelude.{◌≡◌, ◌≤◌, length};
ghost use Rattle.layout.specs.Fields.{fields_of, listed, amount_at};

use crate::{Amount, Field, Fields, Kind, Position, section_at};

// The amount that starts at an index.
pub fn amount_at(start: usize) -> Field
    requires { start ≤ 105 }
    ensures { result ≡ amount_at start }
{
    Field {
        start,
        end: start + Amount::WIDTH,
    }
}

// The creation date of F4, the delega number of 10 to 50, the final balance of 50-01, and the tail's deleghe, sum and records.
const CREATION_DATE: Field = Field {
    start: Position::CREATION_DATE - 1,
    end: 19,
};

const DELEGA_NUMBER: Field = Field {
    start: Position::DELEGA_NUMBER - 1,
    end: 10,
};

pub const FINAL_BALANCE: Field = Field {
    start: Position::FINAL_BALANCE - 1,
    end: 50,
};

pub const TAIL_DELEGHE: Field = Field {
    start: Position::TAIL_DELEGHE - 1,
    end: 52,
};

pub const TAIL_SUM: Field = Field {
    start: Position::TAIL_SUM - 1,
    end: 67,
};

pub const TAIL_RECORDS: Field = Field {
    start: Position::TAIL_RECORDS - 1,
    end: 89,
};

const NOWHERE: Field = Field { start: 0, end: 0 };

// The fields of a record, at most four, as the code hands them out.
pub fn listed(list: &[Field]) -> Fields
    requires { length list.now ≤ 4 }
    ensures { result ≡ listed list.now }
{
    let mut fields = [NOWHERE; 4];
    fields[..list.len()].copy_from_slice(list);
    Fields {
        count: list.len(),
        fields,
    }
}

fn line_fields(s: usize) -> Fields
    ensures { result ≡ listed (fields_of (Kind.Line s)) }
{
    let section = section_at(s);
    listed(&[
        DELEGA_NUMBER,
        amount_at(section.debit),
        amount_at(section.credit),
    ])
}

fn balance_fields(s: usize) -> Fields
    ensures { result ≡ listed (fields_of (Kind.Balance s)) }
{
    let section = section_at(s);
    let balance = amount_at(section.balance);
    if section.totals {
        let debit = amount_at(section.total_debit);
        let credit = amount_at(section.total_credit);
        return listed(&[DELEGA_NUMBER, debit, credit, balance]);
    }
    listed(&[DELEGA_NUMBER, balance])
}

// The numeric fields of a kind of record, in the order of position.
pub fn fields_of(k: Kind) -> Fields
    ensures { result ≡ listed (fields_of k) }
{
    match k {
        Kind::Head => listed(&[CREATION_DATE]),
        Kind::Line(s) => line_fields(s),
        Kind::Balance(s) => balance_fields(s),
        Kind::Payment => listed(&[DELEGA_NUMBER, FINAL_BALANCE]),
        Kind::Taxpayer | Kind::Domicile | Kind::Receipt | Kind::Addressee => {
            listed(&[DELEGA_NUMBER])
        }
        Kind::Tail => listed(&[TAIL_DELEGHE, TAIL_SUM, TAIL_RECORDS]),
        Kind::Unknown => listed(&[]),
    }
}
