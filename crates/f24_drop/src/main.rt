// Drops deleghe from the flow in a file, and saves the flow that is left there.
#![tactic(auto)]

use desk::{Command, Target};
use layout::Flow;

// The most numbers that are lent. A flow has fewer deleghe, and a list of more numbers than deleghe is refused with 21, whatever they are: the first of a longer list
// have the answer of the whole (`cut_list` of dropping/proofs/Dropped.antt).
const MOST_NUMBERS: usize = Flow::MOST_RECORDS + 1;

// Saves the flow that is left, and prints its judgement.
fn deliver(target: &Target, flow: &[u8]) {
    if target.replace(b"shortened", flow) {
        desk::print_judgement(target.command.rt, judge::judge(flow));
    }
}

// Drops the deleghe from a flow that was read from a file.
fn drop_from(target: &Target, flow: &mut [u8], numbers: &[u64]) {
    match dropping::drop_deleghe(flow, numbers) {
        Ok(n) => deliver(target, &flow[..n]),
        Err(why) => desk::print_refusal(target.command.rt, why),
    }
}

// Puts a number at its place in a list, if the list is so long.
fn put(list: &mut [u64], i: usize, number: u64) {
    if i < list.len() {
        list[i] = number;
    }
}

// Reads the arguments from the second on, and puts as many of their numbers into a list as it holds. False, with one line on standard error, where one of them is no number.
fn read_numbers(command: &Command, list: &mut [u64], count: usize) -> bool {
    for i in 2..count {
        let Some(number) = command.number_at(b"NUMBER", i) else {
            return false;
        };
        put(list, i - 2, number);
    }
    true
}

// Every NUMBER is read before the file is opened. Of more numbers than the list holds the first are taken.
fn main(rt: HostRuntime) {
    let command = Command {
        rt: &rt,
        name: b"drop",
    };
    let count = desk::count_words(&rt);
    if count < 3 {
        command.misused(
            b"a file and at least one number are needed",
            b"FILE NUMBER ..",
        );
        return;
    }
    let mut numbers = [0u64; MOST_NUMBERS];
    if read_numbers(&command, &mut numbers, count) {
        let numbers = &numbers[..MOST_NUMBERS.min(count - 2)];
        command.change_file(|target, flow| drop_from(target, flow, numbers));
    }
}
