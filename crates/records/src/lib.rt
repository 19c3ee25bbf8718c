// The records of a flow: where each lies, up to which all bytes are characters, what a record is, and what its fields say.
#![tactic(auto)]

mod lines;

ghost use Rattle.std.specs.Prelude.{◌≡◌, ◌+◌, ◌/◌, ◌<◌, ◌≤◌, eqb, length, take, drop};
ghost use Rattle.text.specs.Characters.{first_bad};
ghost use Rattle.text.specs.Numbers.{number_of};
ghost use Rattle.words.specs.Words.{word};
ghost use Rattle.layout.specs.Kinds.{type_in, kind_in};
ghost use Rattle.layout.specs.Fields.{fields_of, bytes_of, Within};
ghost use Rattle.rules.specs.Checks.{char_fault};
ghost use Rattle.records.specs.Reading.{Clean, offset_of, non_digit_at, values_read};

use layout::{Field, Flow, Kind, Part, RecordType};
pub use lines::line_sums;
use refusal::Fault;
use text::DigitsError;

// The record that starts at an index.
pub fn record_at(flow: &[u8], at: usize) -> &[u8]
    requires { at + 120 ≤ length flow.now }
    ensures { result.now ≡ take 120 (drop at flow.now) }
{
    &flow[at..at + Flow::RECORD]
}

// Check 3.
pub fn char_fault(rec: &[u8]) -> Result<(), Fault>
    ensures { result ≡ char_fault (first_bad rec.now) }
{
    match text::first_bad(rec) {
        None => Ok(()),
        Some(i) => Err(Fault {
            number: 3,
            position: i + 1,
        }),
    }
}

// The type of a record.
pub fn type_in(rec: &[u8]) -> RecordType
    requires { length rec.now ≡ 120 }
    ensures { result ≡ type_in rec.now }
{
    layout::type_by(words::pair_at(rec, Part::TYPE))
}

// The kind of a record.
#[tactic(auto, unfolding(layout::specs::Forms::form_of))]
pub fn kind_in(rec: &[u8]) -> Kind
    requires { length rec.now ≡ 120 }
    ensures { result ≡ kind_in rec.now }
{
    layout::form_in(rec).kind
}

// What the digits of a field say.
pub fn read_field(rec: &[u8], field: Field) -> Result<u64, DigitsError>
    requires { (length rec.now ≡ 120) × Within field }
    ensures { result ≡ number_of (bytes_of rec.now field) }
{
    text::number(&rec[field.start..field.end])
}

// The offset of the first character of a field that is no digit, by what the field's digits say; 0 where they tell none.
fn offset_of(said: Result<u64, DigitsError>) -> usize
    ensures { result ≡ offset_of said }
{
    match said {
        Ok(_) => 0,
        Err(DigitsError::NonDigit(i)) => i,
        Err(DigitsError::TooLong) => 0,
    }
}

// The position of that character in the record, for a field that says no number.
pub fn non_digit_at(field: Field, said: Result<u64, DigitsError>) -> usize
    requires { non_digit_at field said < 1000 }
    ensures { result ≡ non_digit_at field said }
{
    field.start + offset_of(said) + 1
}

// How many records stand before the first, behind those seen, that has a byte outside 32 to 126; all of them where none has. Blocks of records are
// tried, and a block that has such a byte is tried again by halves.
pub fn clean_records(flow: &[u8], seen: usize) -> usize
    requires { seen ≤ length flow.now / 120 }
    ensures { Clean flow.now seen result }
{
    let count = flow.len() / Flow::RECORD;
    let mut k = seen;
    let mut block: usize = 128;
    // Kept: no count to go over: each turn goes on by a block, or halves it.
    while k < count {
        block = block.min(count - k);
        if text::long_allowed(&flow[k * Flow::RECORD..(k + block) * Flow::RECORD]) {
            k += block;
        } else if block == 1 {
            return k;
        } else {
            block /= 2;
        }
    }
    count
}

// What the numeric fields of a record say, read one by one, or the position of the first character in them that is no digit: of head and tail, which carry
// no delega's number.
pub fn values_in(rec: &[u8], kind: Kind) -> Result<[u64; 4], usize>
    requires { length rec.now ≡ 120 }
    ensures { result ≡ values_read (fields_of kind) rec.now }
{
    let fields = layout::fields_of(kind);
    let mut values = [0u64; 4];
    for f in 0..fields.count {
        let field = fields.fields[f];
        let said = read_field(rec, field);
        let Ok(v) = said else {
            return Err(non_digit_at(field, said));
        };
        values[f] = v;
    }
    Ok(values)
}

// Whether a record of a delega carries its number: the zero with which its type ends and the seven digits behind it are the word of that number.
pub fn carries(rec: &[u8], own: u64) -> bool
    requires { length rec.now ≡ 120 }
    ensures { result ≡ eqb (word (take 8 (drop 2 rec.now))) own }
{
    words::word_at(rec, Part::TYPE + 1) == own
}
