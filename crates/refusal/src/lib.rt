// What a refusal tells: the number that documents 01 and 02 give it, the record, counted from 1, and the position.
#![tactic(auto)]

ghost use Rattle.std.specs.Prelude.{◌≡◌};
ghost use Rattle.refusal.specs.Refusals.{in_record};

// A failed check of one record: its number, and the position in the record.
#[derive(Clone, Copy, PartialEq, Eq)]
pub struct Fault {
    pub number: u64,
    pub position: usize,
}

// A refusal: its number, the record and the position.
#[derive(Clone, Copy, PartialEq, Eq)]
pub struct Refusal {
    pub number: u64,
    pub record: usize,
    pub position: usize,
}

impl Fault {
    // The refusal that a failed check is, told of the record with this number.
    pub fn in_record(self, at: usize) -> Refusal
        ensures { result ≡ in_record self at }
    {
        Refusal {
            number: self.number,
            record: at,
            position: self.position,
        }
    }
}

// The refusals that are told of no record, by their numbers.
impl Refusal {
    // 1: more than 546 records.
    pub const LONG_FLOW: Refusal = Refusal {
        number: 1,
        record: 0,
        position: 0,
    };

    // 2: no bytes, or not whole records.
    pub const NO_WHOLE_RECORDS: Refusal = Refusal {
        number: 2,
        record: 0,
        position: 0,
    };

    // 9: amounts that the line may not carry.
    pub const UNFIT_AMOUNTS: Refusal = Refusal {
        number: 9,
        record: 0,
        position: 0,
    };

    // 14: a delega turns negative.
    pub const NEGATIVE_DELEGA: Refusal = Refusal {
        number: 14,
        record: 0,
        position: 0,
    };

    // 21: no such delega, section or line.
    pub const NO_SUCH_LINE: Refusal = Refusal {
        number: 21,
        record: 0,
        position: 0,
    };

    // 22: an amount above the largest.
    pub const LARGE_AMOUNT: Refusal = Refusal {
        number: 22,
        record: 0,
        position: 0,
    };

    // 23: a total, balance or sum has more digits than its field.
    pub const NO_FIT: Refusal = Refusal {
        number: 23,
        record: 0,
        position: 0,
    };

    // 24: the bytes are no sheet.
    pub const NO_SHEET: Refusal = Refusal {
        number: 24,
        record: 0,
        position: 0,
    };

    // 25: the room is too short for the flow.
    pub const SHORT_ROOM: Refusal = Refusal {
        number: 25,
        record: 0,
        position: 0,
    };

    // 27: the list is too short for the fields that change.
    pub const SHORT_LIST: Refusal = Refusal {
        number: 27,
        record: 0,
        position: 0,
    };

    // 28: no delega would be left.
    pub const NO_DELEGA_LEFT: Refusal = Refusal {
        number: 28,
        record: 0,
        position: 0,
    };

    // 29: the record of sums is not the flow's.
    pub const FOREIGN_SUMS: Refusal = Refusal {
        number: 29,
        record: 0,
        position: 0,
    };

    // 30: not one record of the F24 EP form, or too many, or not whole ones.
    pub const NO_FORM_RECORDS: Refusal = Refusal {
        number: 30,
        record: 0,
        position: 0,
    };
}
