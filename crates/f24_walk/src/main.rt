// Walks the flow in the file that its argument names, and prints each record with its number.
#![tactic(auto)]

use desk::Command;
use layout::Flow;
use refusal::Refusal;

// Prints what a step answers, and says whether the walk goes on.
fn show(rt: &HostRuntime, answer: Result<Option<usize>, Refusal>, part: &[u8]) -> bool {
    match answer {
        Ok(Some(k)) => {
            desk::print_record(rt, k, part);
            true
        }
        Ok(None) => false,
        Err(why) => {
            desk::print_refusal(rt, why);
            false
        }
    }
}

// Steps on from the start until a step shows no record. There are at most as many steps as a flow has records, and one more.
fn walk_through(rt: &HostRuntime, flow: &[u8]) {
    let mut walker = walk::new(flow);
    for _ in 0..Flow::MOST_RECORDS + 1 {
        let stepped = walk::step_on(walker);
        if !show(rt, stepped.answer, stepped.part) {
            return;
        }
        walker = stepped.walker;
    }
}

fn main(rt: HostRuntime) {
    let command = Command {
        rt: &rt,
        name: b"walk",
    };
    if desk::count_words(&rt) != 2 {
        command.misused(b"one argument is needed", b"FILE");
        return;
    }
    command.with_flow(1, |flow| walk_through(&rt, flow));
}
