// The run cases of the correction: each stored call is made on its flow. Its name, its answer, whether the bytes are then the expected
// ones and, where the correction is made, the judgement of the new flow are printed.
// A case is a line of 153 bytes: its name in 40, then, each after a space, five numbers in 20 digits and a length in six. Below it
// stand that many bytes of the flow, a line end, as many expected bytes, and a line end.
#![tactic(auto)]

use desk::Numbers;
use layout::Flow;
use std::fs::File;

// The room takes flows that are too long by a byte, and the line end.
const ROOM: usize = Flow::MOST_BYTES + 2;

// Makes a call, and prints what comes of it.
fn make(rt: &HostRuntime, flow: &mut [u8], expected: &[u8], call: Numbers) {
    match correct::correct(
        flow,
        call.first,
        call.second,
        call.third,
        call.fourth,
        call.fifth,
    ) {
        Ok(()) => {
            desk::print_bytes(rt, b"MADE\n");
            desk::print_comparison(rt, flow, expected);
            desk::print_judgement(rt, judge::judge(flow));
        }
        Err(why) => {
            desk::print_refusal(rt, why);
            desk::print_comparison(rt, flow, expected);
        }
    }
}

// One case, below whose flow stand the expected bytes; false where they are not there.
fn one_case(rt: &HostRuntime, cases: &mut File, call: Numbers, flow: &mut [u8]) -> bool {
    let n = flow.len();
    let mut expected = [0u8; ROOM];
    if !desk::read_next(cases, &mut expected, n) {
        return false;
    }
    make(rt, flow, &expected[..n], call);
    true
}

fn main(rt: HostRuntime) {
    desk::run_cases::<ROOM, _>(&rt, b"calls", desk::CALL_HEADER, one_case);
}
