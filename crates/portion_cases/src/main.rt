// The run cases of the judgement by portions: five calls in a row are made on each stored flow, the first from the stored state. The name of the case, what
// each call answers and the state after them are printed.
// A case is a line of 153 bytes: its name in 40, then, each after a space, five portions in 20 digits and a length in six. Below it stand that many bytes of the flow, a
// line end, the 53 numbers of the state in 20 digits each with a space between, and a line end.
#![tactic(auto)]

use desk::Numbers;
use layout::Flow;
use std::fs::File;

// The room takes flows that are too long by a byte, and the line end.
const ROOM: usize = Flow::MOST_BYTES + 2;

// Numbers, each after a space, and the end of their line.
fn print_numbers(rt: &HostRuntime, numbers: &[u64]) {
    for n in numbers {
        let _ = print!(rt; " {n}");
    }
    desk::print_bytes(rt, b"\n");
}

// Prints what a call has returned, and the numbers that it has written: one where the judgement has not ended and for a foreign state, 15 with acceptance, three with
// a refusal.
fn print_answer(rt: &HostRuntime, returned: u64, answer: [u64; 15]) {
    let _ = print!(rt; "{returned}");
    match returned {
        0 => print_numbers(rt, &answer),
        101 | 102 => print_numbers(rt, &answer[0..1]),
        _ => print_numbers(rt, &answer[0..3]),
    }
}

// Makes one call, and prints its answer.
fn call(rt: &HostRuntime, flow: &[u8], portion: u64, state: &mut [u64]) {
    let mut answer = [0u64; 15];
    let returned = f24::f24_judge_portion(flow, portion, state, &mut answer);
    print_answer(rt, returned, answer);
}

// Makes five calls from a state, and prints the state after them.
fn make(rt: &HostRuntime, flow: &[u8], portions: Numbers, state: &mut [u64]) {
    for portion in [
        portions.first,
        portions.second,
        portions.third,
        portions.fourth,
        portions.fifth,
    ] {
        call(rt, flow, portion, state);
    }
    desk::print_bytes(rt, b"STATE");
    print_numbers(rt, state);
}

// One case, below whose flow stands the state; false where it is not there.
fn one_case(rt: &HostRuntime, cases: &mut File, portions: Numbers, flow: &mut [u8]) -> bool {
    let mut text = [0u8; 1113];
    if !desk::read_next(cases, &mut text, 1112) {
        return false;
    }
    let mut state = [0u64; 53];
    desk::put_numbers(&mut state, &text);
    make(rt, flow, portions, &mut state);
    true
}

// The cases that were written by hand, then those that the reference has answered.
fn main(rt: HostRuntime) {
    desk::run_cases::<ROOM, _>(&rt, b"calls", desk::CALL_HEADER, one_case);
    desk::run_cases::<ROOM, _>(&rt, b"vectors", desk::CALL_HEADER, one_case);
}
