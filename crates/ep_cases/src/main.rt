// The run cases of the F24 EP form: the records of each stored case are judged, and its name and the answer are printed.
// A case is a line of 48 bytes, its name in 40 and its length in six digits, then that many bytes, then a line end.
#![tactic(auto)]

use desk::Numbers;
use std::fs::File;

// The room takes 100,000 bytes, which no case exceeds, and the line end.
const ROOM: usize = 100_001;

// Judges the records of a case.
fn one_case(rt: &HostRuntime, _cases: &mut File, _call: Numbers, records: &mut [u8]) -> bool {
    desk::print_payments(rt, ep::ep_judge(records).map(|all| (all.count, all.sum)));
    true
}

// The cases whose answers were written by hand, then the records that the reference has answered.
fn main(rt: HostRuntime) {
    desk::run_cases::<ROOM, _>(&rt, b"records", desk::FLOW_HEADER, one_case);
    desk::run_cases::<ROOM, _>(&rt, b"vectors", desk::FLOW_HEADER, one_case);
}
