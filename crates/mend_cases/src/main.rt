// The run cases of the rebalancing: each stored flow is rebalanced with a list of the stored length. Its name, the answer, the fields listed, whether the rest of the list
// is as it came, whether the bytes are then the expected ones and, where the flow is rebalanced, its judgement are printed.
// A case is a line of 153 bytes: its name in 40, then, each after a space, five numbers in 20 digits and a length in six. The first number is the length of the list, and
// the length is that of the flow. Below it stand the flow, a line end, as many expected bytes, and a line end.
#![tactic(auto)]

use desk::Numbers;
use layout::Flow;
use std::fs::File;

// The room takes flows that are too long by a byte, and the line end.
const ROOM: usize = Flow::MOST_BYTES + 2;

// The longest list of a case.
const MOST_LIST: usize = 5_000;

// Whether every number of a list is as it was marked, from one of them on.
fn is_marked(list: &[u64], from: usize) -> bool {
    for (i, n) in list.iter().enumerate() {
        if from <= i && *n != desk::FIRST_MARK + i as u64 {
            return false;
        }
    }
    true
}

// Whether the numbers behind so many pairs are as they came. A list that has not so many pairs is none that came back right.
fn is_kept(list: &[u64], count: usize) -> bool {
    count <= list.len() / 2 && is_marked(list, 2 * count)
}

// Prints whether the numbers behind so many pairs are as they came.
fn print_kept(rt: &HostRuntime, list: &[u64], count: usize) {
    if is_kept(list, count) {
        desk::print_bytes(rt, b"KEPT\n");
    } else {
        desk::print_bytes(rt, b"ALTERED\n");
    }
}

// Rebalances a flow, and prints what comes of it.
fn make(rt: &HostRuntime, flow: &mut [u8], expected: &[u8], list: &mut [u64]) {
    match mend::mend(flow, list) {
        Ok(count) => {
            desk::print_counted(rt, "REBALANCED", count);
            desk::print_changes(rt, list, count);
            print_kept(rt, list, count);
            desk::print_comparison(rt, flow, expected);
            desk::print_judgement(rt, judge::judge(flow));
        }
        Err(why) => {
            desk::print_refusal(rt, why);
            print_kept(rt, list, 0);
            desk::print_comparison(rt, flow, expected);
        }
    }
}

// Rebalances a flow with a list of so many numbers, if a list can be so long.
fn make_with(rt: &HostRuntime, flow: &mut [u8], expected: &[u8], size: usize) -> bool {
    if MOST_LIST < size {
        return false;
    }
    let mut list = [0u64; MOST_LIST];
    desk::mark(&mut list);
    make(rt, flow, expected, &mut list[0..size]);
    true
}

// One case, below whose flow stand the expected bytes; false where they are not there.
fn one_case(rt: &HostRuntime, cases: &mut File, call: Numbers, flow: &mut [u8]) -> bool {
    let n = flow.len();
    let mut expected = [0u8; ROOM];
    desk::read_next(cases, &mut expected, n)
        && make_with(rt, flow, &expected[..n], call.first as usize)
}

// The cases whose answers were written by hand, then the flows that the reference has answered.
fn main(rt: HostRuntime) {
    desk::run_cases::<ROOM, _>(&rt, b"calls", desk::CALL_HEADER, one_case);
    desk::run_cases::<ROOM, _>(&rt, b"vectors", desk::CALL_HEADER, one_case);
}
