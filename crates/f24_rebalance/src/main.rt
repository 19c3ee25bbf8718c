// Rebalances the flow in a file, and saves it there where a field changed. With --dry before the file nothing is saved. The fields that changed are printed, and
// then the judgement of the rebalanced flow.
#![tactic(auto)]

use desk::{Command, Target};
use layout::Flow;

// The longest list: record and start of four fields for each record.
const MOST_CHANGED: usize = 2 * 4 * Flow::MOST_RECORDS;

// Prints the fields that changed, and the judgement of the rebalanced flow.
fn print_rebalanced(rt: &HostRuntime, flow: &[u8], list: &[u64], count: usize) {
    desk::print_changes(rt, list, count);
    desk::print_judgement(rt, judge::judge(flow));
}

// Saves a flow in which fields changed; where none did, the file is the flow already and is not written. False where it cannot be saved.
fn kept(target: &Target, flow: &[u8], count: usize) -> bool {
    count == 0 || target.replace(b"rebalanced", flow)
}

// Rebalances a flow that was read from a file.
fn rebalance_flow(target: &Target, flow: &mut [u8]) {
    let rt = target.command.rt;
    let mut list = [0u64; MOST_CHANGED];
    match mend::mend(flow, &mut list) {
        Ok(count) => {
            if kept(target, flow, count) {
                print_rebalanced(rt, flow, &list, count);
            }
        }
        Err(why) => desk::print_refusal(rt, why),
    }
}

// Rebalances a flow in memory alone.
fn try_flow(rt: &HostRuntime, flow: &mut [u8]) {
    let mut list = [0u64; MOST_CHANGED];
    match mend::mend(flow, &mut list) {
        Ok(count) => print_rebalanced(rt, flow, &list, count),
        Err(why) => desk::print_refusal(rt, why),
    }
}

// Whether the first argument asks that nothing be saved.
fn asks_dry(rt: &HostRuntime) -> bool {
    let mut word = [0u8; 5];
    let n = desk::word_at(rt, 1, &mut word);
    text::same_bytes(&word[..n], b"--dry")
}

// A first word --dry is never FILE itself, also where no other follows it: whoever asked that nothing be saved is told the usage.
fn main(rt: HostRuntime) {
    let command = Command {
        rt: &rt,
        name: b"rebalance",
    };
    match (asks_dry(&rt), desk::count_words(&rt)) {
        (true, 3) => command.with_flow(2, |flow| try_flow(&rt, flow)),
        (false, 2) => command.change_file(rebalance_flow),
        _ => command.misused(
            b"one flow is rebalanced at a time",
            b"FILE, or ./f24 rebalance --dry FILE",
        ),
    }
}
