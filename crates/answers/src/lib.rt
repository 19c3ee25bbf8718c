// The numbers in which the library writes its answers: a refusal, a summary, a delega, a portion and the state after it.
#![tactic(auto)]

ghost use Rattle.std.specs.Prelude.{◌≡◌, ◌≤◌, ◌∷◌, ◌++◌, length};
ghost use Rattle.state.specs.Numbers.{overlay, sums_numbers};
ghost use Rattle.answers.specs.Numbers.{summary_numbers, delega_numbers, refusal_numbers, answer_code, number_or_refusal, course_code, portion_numbers, handed_back};

use amounts::Sums;
use delega::DelegaAnswer;
use judge::Summary;
use portion::{Course, Portion};
use refusal::Refusal;

// What is returned where a judgement has not ended, and for a state that no judgement of the flow can have handed back.
const NOT_ENDED: u64 = 101;

const FOREIGN: u64 = 102;

// Writes the record and the position of a refusal, and returns its number.
pub fn put_refusal(room: &mut [u64], why: Refusal) -> u64
    requires { 2 ≤ length room.old }
    ensures number { result ≡ why.number }
    ensures room { room.new ≡ overlay (refusal_numbers why.«record» why.position) room.old }
{
    state::put(room, &[why.record as u64, why.position as u64]);
    why.number
}

// Writes the number that a call answers, or its refusal, and returns 0 or the number of the refusal.
pub fn put_number(room: &mut [u64], answer: Result<usize, Refusal>) -> u64
    requires { 2 ≤ length room.old }
    ensures code { result ≡ answer_code answer }
    ensures room { room.new ≡ overlay (number_or_refusal answer) room.old }
{
    match answer {
        Ok(n) => {
            state::put(room, &[n as u64]);
            0
        }
        Err(why) => put_refusal(room, why),
    }
}

// The ten sums of five sections, as they are written.
fn sums_numbers(sums: [Sums; 5]) -> [u64; 10]
    ensures { result ≡ sums_numbers sums }
{
    [
        sums[0].debit,
        sums[0].credit,
        sums[1].debit,
        sums[1].credit,
        sums[2].debit,
        sums[2].credit,
        sums[3].debit,
        sums[3].credit,
        sums[4].debit,
        sums[4].credit,
    ]
}

// Writes the ten sums of a record.
pub fn put_sums(room: &mut [u64], kept: [Sums; 5])
    requires { 10 ≤ length room.old }
    ensures { room.new ≡ overlay (sums_numbers kept) room.old }
{
    state::put(room, &sums_numbers(kept));
}

// Four numbers, and ten sums behind them.
fn before_sums(four: [u64; 4], sums: [Sums; 5]) -> [u64; 14]
    ensures { result ≡ four ++ sums_numbers sums }
{
    let mut numbers = [0; 14];
    numbers[..4].copy_from_slice(&four);
    numbers[4..].copy_from_slice(&sums_numbers(sums));
    numbers
}

// The numbers of a summary, as they are written.
#[tactic(auto, unfolding(crate::specs::Numbers::summary_numbers))]
pub fn summary_numbers(s: Summary) -> [u64; 14]
    ensures { result ≡ summary_numbers s }
{
    before_sums([s.deleghe, s.records as u64, s.total, s.lines], s.sums)
}

// The numbers of a delega, as they are written.
#[tactic(auto, unfolding(crate::specs::Numbers::delega_numbers))]
pub fn delega_numbers(d: DelegaAnswer) -> [u64; 14]
    ensures { result ≡ delega_numbers d }
{
    before_sums([d.balance, d.lines, d.set, d.size], d.sums)
}

// What a portion's answer returns.
pub fn course_code(course: Course) -> u64
    ensures { result ≡ course_code course }
{
    match course {
        Course::Going => NOT_ENDED,
        Course::Accepted => 0,
        Course::Refused(number, _, _) => number,
        Course::Foreign => FOREIGN,
    }
}

// The numbers of an accepted flow, as they are written behind the number of records examined.
fn accepted_numbers(examined: usize, s: Summary) -> [u64; 15]
    ensures { result ≡ examined ∷ summary_numbers s }
{
    let mut numbers = [examined as u64; 15];
    numbers[1..].copy_from_slice(&summary_numbers(s));
    numbers
}

// Writes a portion's answer.
pub fn put_portion(room: &mut [u64], part: Portion)
    requires { 15 ≤ length room.old }
    ensures { room.new ≡ overlay (portion_numbers part) room.old }
{
    let examined = part.examined;
    match part.answer {
        Course::Going | Course::Foreign => state::put(room, &[examined as u64]),
        Course::Accepted => state::put(room, &accepted_numbers(examined, part.summary)),
        Course::Refused(_, at, position) => {
            state::put(room, &[examined as u64, at as u64, position as u64]);
        }
    }
}

// Writes the state after a portion; a foreign one stays as it came.
pub fn hand_back(room: &mut [u64], part: Portion)
    requires { 53 ≤ length room.old }
    ensures { room.new ≡ handed_back part room.old }
{
    if let Course::Foreign = part.answer {
        return;
    }
    state::put(room, &handed::progress_numbers(part.next));
}
