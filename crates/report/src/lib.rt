// What the programs print, written into a room that the caller lends. Every text is at most 512 bytes long, and a room that is
// shorter than that is left as it came.
#![tactic(auto)]

ghost use Rattle.std.specs.Prelude.{◌≡◌, ◌+◌, ◌≤◌, length};
ghost use Rattle.text.specs.Numbers.{digits_of};
ghost use Rattle.layout.specs.Sections.{section_at};
ghost use Rattle.report.specs.Printed.{field_text, pair_text, section_text, sections_text, accepted_text, refused_text, answered_text, line_text, judgement_text, delega_text, Printed};
ghost use Rattle.report.specs.Appended.{Appended};

use amounts::Sums;
use delega::DelegaAnswer;
use judge::{Judgement, Summary};

// The room in which every text fits.
pub const ROOM: usize = 512;

// A number and the byte after it: a space, or the end of the line.
fn put_field(room: &mut [u8], at: usize, n: u64, after: u8) -> usize
    requires { at + 21 ≤ length room.old }
    ensures { Appended at (field_text n after) 21 room.old room.new result }
{
    let end = printing::put_decimal(room, at, n);
    printing::put_byte(room, end, after)
}

// The last two numbers of a line.
fn put_pair(room: &mut [u8], at: usize, a: u64, b: u64) -> usize
    requires { at + 42 ≤ length room.old }
    ensures { Appended at (pair_text a b) 42 room.old room.new result }
{
    let end = put_field(room, at, a, b' ');
    put_field(room, end, b, b'\n')
}

// The subtype of a section's lines, in two digits.
fn put_subtype(room: &mut [u8], at: usize, s: usize) -> usize
    requires { at + 2 ≤ length room.old }
    ensures { Appended at (digits_of 2 (section_at s).line_subtype) 2 room.old room.new result }
{
    text::put_number(room, at, 2, layout::section_at(s).line_subtype);
    at + 2
}

// The line of one section.
fn put_section(room: &mut [u8], at: usize, s: usize, sums: Sums) -> usize
    requires { at + 45 ≤ length room.old }
    ensures { Appended at (section_text s sums) 45 room.old room.new result }
{
    let word = put_subtype(room, at, s);
    let end = printing::put_byte(room, word, b' ');
    put_pair(room, end, sums.debit, sums.credit)
}

// The lines of the five sections.
fn put_sections(room: &mut [u8], at: usize, sums: [Sums; 5]) -> usize
    requires { at + 225 ≤ length room.old }
    ensures { Appended at (sections_text sums) 225 room.old room.new result }
{
    let mut end = at;
    for (s, &section) in sums.iter().enumerate() {
        end = put_section(room, end, s, section);
    }
    end
}

// An acceptance: its first line, and a line for each section.
fn put_accepted(room: &mut [u8], summary: Summary) -> usize
    requires { 512 ≤ length room.old }
    ensures { Appended 0 (accepted_text summary) 318 room.old room.new result }
{
    let word = printing::put_word(room, 0, b"ACCEPTED ");
    let deleghe = put_field(room, word, summary.deleghe, b' ');
    let records = put_field(room, deleghe, summary.records as u64, b' ');
    let line = put_pair(room, records, summary.total, summary.lines);
    put_sections(room, line, summary.sums)
}

// One delega: its number, its final balance, its lines, its set of sections and the size of it, and a line for each section.
fn put_answered(room: &mut [u8], number: u64, answer: DelegaAnswer) -> usize
    requires { 512 ≤ length room.old }
    ensures { Appended 0 (answered_text number answer) 337 room.old room.new result }
{
    let word = printing::put_word(room, 0, b"DELEGA ");
    let which = put_field(room, word, number, b' ');
    let balance = put_field(room, which, answer.balance, b' ');
    let lines = put_field(room, balance, answer.lines, b' ');
    let line = put_pair(room, lines, answer.set, answer.size);
    put_sections(room, line, answer.sums)
}

// A refusal: one line.
fn put_refused(room: &mut [u8], number: u64, at: usize, position: usize) -> usize
    requires { 512 ≤ length room.old }
    ensures { Appended 0 (refused_text number at position) 71 room.old room.new result }
{
    let word = printing::put_word(room, 0, b"REFUSED ");
    let end = put_field(room, word, number, b' ');
    put_pair(room, end, at as u64, position as u64)
}

// What the judging program prints.
pub fn judgement_text(j: Judgement, room: &mut [u8]) -> usize
    ensures { Printed (judgement_text j) room.old room.new result }
{
    if room.len() < ROOM {
        return 0;
    }
    match j.verdict {
        Ok(()) => put_accepted(room, j.summary),
        Err(why) => put_refused(room, why.number, why.record, why.position),
    }
}

// What every program prints of a refusal.
pub fn refusal_text(number: u64, at: usize, position: usize, room: &mut [u8]) -> usize
    ensures { Printed (refused_text number at position) room.old room.new result }
{
    if room.len() < ROOM {
        return 0;
    }
    put_refused(room, number, at, position)
}

// What is printed of the answer for the delega with a number.
pub fn delega_text(number: u64, answer: DelegaAnswer, room: &mut [u8]) -> usize
    ensures { Printed (delega_text number answer) room.old room.new result }
{
    if room.len() < ROOM {
        return 0;
    }
    match answer.verdict {
        Ok(()) => put_answered(room, number, answer),
        Err(why) => put_refused(room, why.number, why.record, why.position),
    }
}

// What is printed of a found line: the number of its record.
pub fn line_text(at: usize, room: &mut [u8]) -> usize
    ensures { Printed (line_text at) room.old room.new result }
{
    if room.len() < ROOM {
        return 0;
    }
    let word = printing::put_word(room, 0, b"LINE ");
    put_field(room, word, at as u64, b'\n')
}
