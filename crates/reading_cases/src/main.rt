// The run cases of the calls that read: each stored call is made on its flow, and its name and what the desk is shown are printed.
// A case is a line of 153 bytes: its name in 40, then, each after a space, five numbers in 20 digits and a length in six; then that many
// bytes of the flow, and a line end. The first number says which call it is: 1 a delega by its number, 2 a line by delega, subtype and place, 3 a step of a
// walk from a place.
#![tactic(auto)]

use desk::Numbers;
use layout::Flow;
use std::fs::File;
use walk::WalkPlace;

// The room takes flows that are too long by a byte, and the line end.
const ROOM: usize = Flow::MOST_BYTES + 2;

// A step of a walk from a place: the record that it shows, or that there is no more, or the refusal; and the place after it.
fn print_step(rt: &HostRuntime, flow: &[u8], shown: usize) {
    let step = walk::step_at(flow, WalkPlace { shown });
    let answer = step.answer;
    match answer {
        Ok(Some(k)) => desk::print_record(rt, k, walk::part_at(flow, answer)),
        Ok(None) => desk::print_bytes(rt, b"NO MORE\n"),
        Err(why) => desk::print_refusal(rt, why),
    }
    desk::print_counted(rt, "PLACE", step.next.shown);
}

// Makes the call of a case on its flow.
fn one_case(rt: &HostRuntime, _cases: &mut File, call: Numbers, flow: &mut [u8]) -> bool {
    match call.first {
        1 => desk::print_delega(rt, flow, call.second),
        2 => desk::print_line(rt, flow, call.second, call.third, call.fourth),
        _ => print_step(rt, flow, call.second as usize),
    }
    true
}

// The calls whose answers were written by hand, then those on single deleghe that the reference has answered.
fn main(rt: HostRuntime) {
    desk::run_cases::<ROOM, _>(&rt, b"calls", desk::CALL_HEADER, one_case);
    desk::run_cases::<ROOM, _>(&rt, b"vectors", desk::CALL_HEADER, one_case);
}
