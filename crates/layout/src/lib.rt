// The kinds of records of a flow, the five sections, and the columns of the numeric fields.
// A column is written as document 01 and CBI-F24-001 count it, from 1, less 1: `29 - 1` is the index of position 29.
#![tactic(auto)]

mod columns;
mod forms;
mod kinds;

ghost use Rattle.std.specs.Prelude.{◌≡◌};
ghost use Rattle.layout.specs.Sections.{section_at};

pub use columns::{
    FINAL_BALANCE, TAIL_DELEGHE, TAIL_RECORDS, TAIL_SUM, amount_at, fields_of, listed,
};
pub use forms::{form_in, is_numbered, type_by};
pub use kinds::{balance_of, section_kind};

// What the product writes and reads of an amount, in cents.
#[derive(Clone, Copy)]
pub struct Amount {
    pub cents: u64,
}

impl Amount {
    pub const LARGEST: u64 = 999_999_999_999_999;

    pub const WIDTH: usize = 15;
}

// The size of a flow.
#[derive(Clone, Copy)]
pub struct Flow {
    pub records: usize,
}

impl Flow {
    pub const RECORD: usize = 120;

    pub const MOST_RECORDS: usize = 546;

    pub const MOST_BYTES: usize = Self::MOST_RECORDS * Self::RECORD;
}

// Where the fields of the records start, as document 01 and CBI-F24-001 count positions. The lines and balances have theirs in the table of sections.
#[derive(Clone, Copy)]
pub struct Position {
    pub from: usize,
}

impl Position {
    pub const TYPE: usize = 2;

    pub const DELEGA_NUMBER: usize = 4;

    pub const SUBTYPE: usize = 11;

    pub const TAX_CODE: usize = 11;

    pub const CREATION_DATE: usize = 14;

    pub const SUPPORT_NAME: usize = 20;

    pub const FINAL_BALANCE: usize = 36;

    pub const TAIL_DELEGHE: usize = 46;

    pub const TAIL_SUM: usize = 53;

    pub const TAIL_RECORDS: usize = 83;
}

// The indexes of what is taken of a record without being read as a number: where each begins, and of the tax code and the support name the index behind the end.
#[derive(Clone, Copy)]
pub struct Part {
    pub from: usize,
}

impl Part {
    pub const TYPE: usize = Position::TYPE - 1;

    pub const SUBTYPE: usize = Position::SUBTYPE - 1;

    pub const TAX_CODE: usize = Position::TAX_CODE - 1;

    pub const TAX_CODE_END: usize = 26;

    pub const SUPPORT_NAME: usize = Position::SUPPORT_NAME - 1;

    pub const SUPPORT_NAME_END: usize = 39;
}

// One section: the subtypes of its lines and of its balance record, where their fields start, and what its lines may be.
#[derive(Clone, Copy)]
pub struct Section {
    pub line_subtype: u64,
    pub balance_subtype: u64,
    pub debit: usize,
    pub credit: usize,
    pub totals: bool,
    pub total_debit: usize,
    pub total_credit: usize,
    pub sign: usize,
    pub balance: usize,
    pub most_lines: u64,
    pub credit_allowed: bool,
}

// Erario, INPS, Regioni, IMU and local taxes, identifying elements, in the order of document 01.
pub const SECTIONS: [Section; 5] = [
    Section {
        line_subtype: 1,
        balance_subtype: 2,
        debit: 27 - 1,
        credit: 42 - 1,
        totals: true,
        total_debit: 13 - 1,
        total_credit: 28 - 1,
        sign: 43 - 1,
        balance: 44 - 1,
        most_lines: 6,
        credit_allowed: true,
    },
    Section {
        line_subtype: 3,
        balance_subtype: 4,
        debit: 52 - 1,
        credit: 67 - 1,
        totals: true,
        total_debit: 13 - 1,
        total_credit: 28 - 1,
        sign: 43 - 1,
        balance: 44 - 1,
        most_lines: 4,
        credit_allowed: true,
    },
    Section {
        line_subtype: 5,
        balance_subtype: 6,
        debit: 29 - 1,
        credit: 44 - 1,
        totals: true,
        total_debit: 15 - 1,
        total_credit: 30 - 1,
        sign: 45 - 1,
        balance: 46 - 1,
        most_lines: 4,
        credit_allowed: true,
    },
    Section {
        line_subtype: 7,
        balance_subtype: 8,
        debit: 31 - 1,
        credit: 46 - 1,
        totals: true,
        total_debit: 17 - 1,
        total_credit: 32 - 1,
        sign: 47 - 1,
        balance: 48 - 1,
        most_lines: 4,
        credit_allowed: true,
    },
    Section {
        line_subtype: 17,
        balance_subtype: 18,
        debit: 41 - 1,
        credit: 56 - 1,
        totals: false,
        total_debit: 0,
        total_credit: 0,
        sign: 43 - 1,
        balance: 44 - 1,
        most_lines: 28,
        credit_allowed: false,
    },
];

// The row of a section; past the table all is zero and nothing is allowed. The index is constant in each way out, since the compiler writes the
// whole table into memory at every look-up by a variable index.
#[tactic(auto, unfolding(crate::specs::Sections::section_at))]
pub fn section_at(s: usize) -> Section
    ensures { result ≡ section_at s }
{
    match s {
        0 => SECTIONS[0],
        1 => SECTIONS[1],
        2 => SECTIONS[2],
        3 => SECTIONS[3],
        4 => SECTIONS[4],
        _ => Section {
            line_subtype: 0,
            balance_subtype: 0,
            debit: 0,
            credit: 0,
            totals: false,
            total_debit: 0,
            total_credit: 0,
            sign: 0,
            balance: 0,
            most_lines: 0,
            credit_allowed: false,
        },
    }
}

// The type of a record, positions 2-3.
#[derive(Clone, Copy)]
pub enum RecordType {
    F4,
    T10,
    T20,
    T40,
    T50,
    EF,
    NoType,
}

// What a record is: the head F4, the taxpayer's 10, the domicile's 20, a line or the balance of a section (40), the payment 50-01,
// its receipt 50-02, the receipt's addressee 50-03, the tail EF.
#[derive(Clone, Copy)]
pub enum Kind {
    Head,
    Taxpayer,
    Domicile,
    Line(usize),
    Balance(usize),
    Payment,
    Receipt,
    Addressee,
    Tail,
    Unknown,
}

// What a subtype of a record 40 stands for: a line, with its section and the subtype of the balance that closes it; or the balance of a section.
#[derive(Clone, Copy)]
pub enum Subtype {
    OfLine(usize, u64),
    OfBalance(usize),
}

// A field of a record: rec[start..end].
#[derive(Clone, Copy)]
pub struct Field {
    pub start: usize,
    pub end: usize,
}

// The numeric fields of a record, at most four.
#[derive(Clone, Copy)]
pub struct Fields {
    pub count: usize,
    pub fields: [Field; 4],
}

// How a record is read: its kind, how many numeric fields it has behind its first one, and where the first of these starts. In a record of a delega
// they are amounts: the second follows the first at once, and the third after a sign.
#[derive(Clone, Copy)]
pub struct Form {
    pub kind: Kind,
    pub amounts: usize,
    pub at: usize,
}
