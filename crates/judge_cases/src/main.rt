// The run cases of the judge: each stored flow is judged, and its name and the answer are printed.
// A case is a line of 48 bytes, its name in 40 and its length in six digits, then that many bytes, then a line end.
#![tactic(auto)]

use desk::Numbers;
use layout::Flow;
use std::fs::File;

// The room takes flows that are too long by a record, and the line end.
const ROOM: usize = Flow::MOST_BYTES + Flow::RECORD + 1;

// Judges the flow of a case.
fn one_case(rt: &HostRuntime, _cases: &mut File, _call: Numbers, flow: &mut [u8]) -> bool {
    desk::print_judgement(rt, judge::judge(flow));
    true
}

// The cases whose answers were written by hand, then the flows that the reference has answered.
fn main(rt: HostRuntime) {
    desk::run_cases::<ROOM, _>(&rt, b"flows", desk::FLOW_HEADER, one_case);
    desk::run_cases::<ROOM, _>(&rt, b"vectors", desk::FLOW_HEADER, one_case);
}
