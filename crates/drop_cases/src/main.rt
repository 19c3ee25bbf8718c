// The run cases of the dropping: the deleghe whose numbers are stored with a flow are dropped from it. The name of the case, the answer, whether the lent bytes are then the
// expected ones and, where deleghe are dropped, the judgement of the flow that is left are printed.
// A case is a line of 153 bytes: its name in 40, then, each after a space, five numbers in 20 digits and a length in six. The first number is how many numbers are stored,
// and the length is that of the flow. Below it stand the flow, a line end, as many expected bytes, a line end, the numbers in 20 digits each with a space behind it, and a
// line end.
#![tactic(auto)]

use desk::Numbers;
use layout::Flow;
use std::fs::File;

// The room takes flows that are too long by a record, and the line end.
const ROOM: usize = Flow::MOST_BYTES + Flow::RECORD + 1;

// The longest list of a case.
const MOST_NUMBERS: usize = 600;

// Drops deleghe from a flow, and prints what comes of it.
fn make(rt: &HostRuntime, flow: &mut [u8], expected: &[u8], numbers: &[u64]) {
    match dropping::drop_deleghe(flow, numbers) {
        Ok(length) => {
            desk::print_counted(rt, "DROPPED", length);
            desk::print_comparison(rt, flow, expected);
            desk::print_judgement(rt, judge::judge(&flow[..length]));
        }
        Err(why) => {
            desk::print_refusal(rt, why);
            desk::print_comparison(rt, flow, expected);
        }
    }
}

// Reads the stored numbers, and drops the deleghe; false where there are not so many, or more than a list can have.
fn make_with(
    rt: &HostRuntime,
    cases: &mut File,
    flow: &mut [u8],
    expected: &[u8],
    count: usize,
) -> bool {
    if MOST_NUMBERS < count {
        return false;
    }
    let size = 21 * count;
    let mut text = [0u8; 21 * MOST_NUMBERS + 1];
    if !desk::read_next(cases, &mut text, size) {
        return false;
    }
    let mut numbers = [0u64; MOST_NUMBERS];
    desk::put_numbers(&mut numbers, &text[0..size]);
    make(rt, flow, expected, &numbers[0..count]);
    true
}

// One case, below whose flow stand the expected bytes; false where they are not there.
fn one_case(rt: &HostRuntime, cases: &mut File, call: Numbers, flow: &mut [u8]) -> bool {
    let n = flow.len();
    let mut expected = [0u8; ROOM];
    desk::read_next(cases, &mut expected, n)
        && make_with(rt, cases, flow, &expected[..n], call.first as usize)
}

// The cases whose answers were written by hand, then the flows that the reference has answered.
fn main(rt: HostRuntime) {
    desk::run_cases::<ROOM, _>(&rt, b"calls", desk::CALL_HEADER, one_case);
    desk::run_cases::<ROOM, _>(&rt, b"vectors", desk::CALL_HEADER, one_case);
}
