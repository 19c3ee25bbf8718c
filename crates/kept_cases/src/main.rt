// The run cases of the calls that take a record: corrections, rebalancings and droppings are made in a row on each stored flow, with a record of ten sums kept beside it.
// The name of the case, the record that is made from the flow or the refusal and, of each step, the answer, the fields listed, the record that is handed back, whether
// the lent bytes are then the expected ones and, where the step is no refusal, the judgement of the flow as it is then are printed.
// A case is a line of 153 bytes: its name in 40, then, each after a space, five numbers in 20 digits and a length in six. The first number is how many steps there are,
// and the length is that of the flow. Below it stand the flow, a line end, and the steps.
// A step begins with a line of the same form. In place of the name stands `correct`, and the numbers are the delega, the subtype, the place, the debit and the credit; or
// `rebalance`, and the first is the length of the list; or `drop`, and the first is how many numbers are stored. The length is that of the flow as the step before it left
// it. Below it stand as many expected bytes, a line end, eleven numbers, a line end, the numbers of a dropping, and a line end; each number is in 20 digits with a space
// behind it. Where the first of the eleven is 0 the step is lent the record that was handed back last, else the ten behind it.
#![tactic(auto)]

ghost use Rattle.std.specs.Prelude.{◌+◌, ◌≤◌, length, IfSome};

use desk::Numbers;
use kept::Keeping;
use layout::Flow;
use refusal::Refusal;
use std::fs::File;
use sums::KeptSums;

// The longest flow of a case: one that is too long by a record. The room has a line end more.
const MOST_FLOW: usize = Flow::MOST_BYTES + Flow::RECORD;

const ROOM: usize = MOST_FLOW + 1;

// The most steps of a case.
const MOST_STEPS: usize = 40;

// The longest list of a rebalancing.
const MOST_LIST: usize = 5_000;

// The longest list of a dropping.
const MOST_NUMBERS: usize = 600;

// The most bytes below the line of a step: the expected bytes, the eleven numbers and those of a dropping, with a line end each.
const MOST_REST: usize = MOST_FLOW + 234 + 21 * MOST_NUMBERS;

// What a step does.
#[derive(Clone, Copy)]
enum Kind {
    Correction,
    Rebalancing,
    Dropping,
}

// A step, as its line says it: what it does, and the numbers of its call.
#[derive(Clone, Copy)]
struct Step {
    kind: Kind,
    call: Numbers,
}

// What a step leaves: whether its call is no refusal, the length of the flow and the record. A step that could not be read leaves nothing to go on from.
#[derive(Clone, Copy)]
struct Left {
    done: bool,
    length: usize,
    kept: KeptSums,
}

// The ten sums of a record.
fn print_sums(rt: &HostRuntime, kept: KeptSums) {
    desk::print_bytes(rt, b"SUMS");
    for pair in kept.sums {
        let _ = print!(rt; " {} {}", pair.debit, pair.credit);
    }
    desk::print_bytes(rt, b"\n");
}

// The record that is made from a flow, or the refusal.
fn print_keeping(rt: &HostRuntime, made: Keeping) {
    match made.verdict {
        Ok(()) => print_sums(rt, made.kept),
        Err(why) => desk::print_refusal(rt, why),
    }
}

// The answer of a correction.
fn print_correction(rt: &HostRuntime, answer: Result<(), Refusal>) {
    match answer {
        Ok(()) => desk::print_bytes(rt, b"MADE\n"),
        Err(why) => desk::print_refusal(rt, why),
    }
}

// Corrects one line of a flow, and prints the answer.
fn correct_line(rt: &HostRuntime, flow: &mut [u8], call: Numbers, kept: KeptSums) -> Left
    ensures { result.length ≤ length flow.old }
{
    let made = kept::correct_kept(
        flow,
        call.first,
        call.second,
        call.third,
        call.fourth,
        call.fifth,
        kept,
    );
    print_correction(rt, made.answer);
    Left {
        done: made.answer.is_ok(),
        length: flow.len(),
        kept: made.kept,
    }
}

// The answer of a rebalancing and the fields that it lists.
fn print_mending(rt: &HostRuntime, answer: Result<usize, Refusal>, list: &[u64]) {
    match answer {
        Ok(count) => {
            desk::print_counted(rt, "REBALANCED", count);
            desk::print_changes(rt, list, count);
        }
        Err(why) => desk::print_refusal(rt, why),
    }
}

// Rebalances a flow, and prints the answer.
fn rebalance_flow(rt: &HostRuntime, flow: &mut [u8], list: &mut [u64], kept: KeptSums) -> Left
    ensures { result.length ≤ length flow.old }
{
    let made = kept::rebalance_kept(flow, list, kept);
    print_mending(rt, made.answer, list);
    Left {
        done: made.answer.is_ok(),
        length: flow.len(),
        kept: made.kept,
    }
}

// Rebalances a flow with a list of so many numbers, if a list can be so long.
fn rebalance_with(rt: &HostRuntime, flow: &mut [u8], size: usize, kept: KeptSums) -> Option<Left>
    ensures { IfSome result (λ left. left.length ≤ length flow.old) }
{
    if MOST_LIST < size {
        return None;
    }
    let mut list = [0u64; MOST_LIST];
    desk::mark(&mut list);
    Some(rebalance_flow(rt, flow, &mut list[..size], kept))
}

// Drops deleghe from a flow, and prints the answer.
fn drop_deleghe(rt: &HostRuntime, flow: &mut [u8], numbers: &[u64], kept: KeptSums) -> Left
    ensures { result.length ≤ length flow.old }
{
    let n = flow.len();
    let made = kept::drop_kept(flow, numbers, kept);
    // Kept: tried with one `Left` behind the match, and that the length of the two ways joined lies within the flow stayed open.
    match made.answer {
        Ok(length) => {
            desk::print_counted(rt, "DROPPED", length);
            Left {
                done: true,
                length,
                kept: made.kept,
            }
        }
        Err(why) => {
            desk::print_refusal(rt, why);
            Left {
                done: false,
                length: n,
                kept: made.kept,
            }
        }
    }
}

// Drops so many of the deleghe that a text lists, if a list can have so many.
fn drop_listed(
    rt: &HostRuntime,
    flow: &mut [u8],
    text: &[u8],
    count: usize,
    kept: KeptSums,
) -> Option<Left>
    ensures { IfSome result (λ left. left.length ≤ length flow.old) }
{
    if MOST_NUMBERS < count {
        return None;
    }
    let mut numbers = [0u64; MOST_NUMBERS];
    desk::put_numbers(&mut numbers, text);
    Some(drop_deleghe(rt, flow, &numbers[..count], kept))
}

// What the word at the start of the line of a step says, in ten bytes.
fn kind_of(head: [u8; 153]) -> Option<Kind> {
    match &head[..10] {
        b"correct   " => Some(Kind::Correction),
        b"rebalance " => Some(Kind::Rebalancing),
        b"drop      " => Some(Kind::Dropping),
        _ => None,
    }
}

// Whether the line of a step says this length.
fn says_length(head: [u8; 153], n: usize) -> bool {
    text::number(&head[146..152]) == Ok(n as u64)
}

// Reads the line of a step on a flow of so many bytes; none where it is not there, has no word of a step or says another length.
fn read_line(cases: &mut File, n: usize) -> Option<Step> {
    let mut head = [0u8; 153];
    if !desk::read_next(cases, &mut head, 152) || !says_length(head, n) {
        return None;
    }
    let kind = kind_of(head)?;
    Some(Step {
        kind,
        call: desk::numbers_of(head),
    })
}

// How many bytes the numbers of a dropping take; they are none in other steps.
fn numbers_size(step: Step) -> usize
    ensures { result ≤ 12600 }
{
    let count = step.call.first as usize;
    match step.kind {
        Kind::Dropping if count <= MOST_NUMBERS => 21 * count,
        _ => 0,
    }
}

// The record that a step is lent: the one that was handed back last, or the stored one.
fn lent_record(text: &[u8], last: KeptSums) -> KeptSums {
    let mut numbers = [0u64; 11];
    desk::put_numbers(&mut numbers, text);
    if numbers[0] == 0 {
        return last;
    }
    KeptSums {
        sums: state::sums_at(&numbers, 1),
    }
}

// Makes a step with the numbers that stand below its line.
fn make(rt: &HostRuntime, step: Step, flow: &mut [u8], text: &[u8], last: KeptSums) -> Option<Left>
    requires { 232 ≤ length text.now }
    ensures { IfSome result (λ left. left.length ≤ length flow.old) }
{
    let kept = lent_record(text, last);
    let call = step.call;
    match step.kind {
        Kind::Correction => Some(correct_line(rt, flow, call, kept)),
        Kind::Rebalancing => rebalance_with(rt, flow, call.first as usize, kept),
        Kind::Dropping => drop_listed(rt, flow, &text[232..], call.first as usize, kept),
    }
}

// What a step leaves: the record, whether the lent flow is as expected and, where the step is no refusal, the judgement of the flow as it is then.
fn print_left(rt: &HostRuntime, flow: &[u8], expected: &[u8], left: Left)
    requires { left.length ≤ length flow.now }
{
    print_sums(rt, left.kept);
    desk::print_comparison(rt, flow, expected);
    if left.done {
        desk::print_judgement(rt, judge::judge(&flow[..left.length]));
    }
}

// Makes a step with what stands below its line, and prints what it leaves.
fn step_on(
    rt: &HostRuntime,
    flow: &mut [u8],
    step: Step,
    rest: &[u8],
    last: KeptSums,
) -> Option<Left>
    requires { length flow.old + 233 ≤ length rest.now }
    ensures { IfSome result (λ left. left.length ≤ length flow.old) }
{
    let n = flow.len();
    let left = make(rt, step, flow, &rest[n + 1..], last)?;
    print_left(rt, flow, &rest[..n], left);
    Some(left)
}

// One step on a flow, after one that handed back a record.
fn one_step(rt: &HostRuntime, cases: &mut File, flow: &mut [u8], last: KeptSums) -> Option<Left>
    ensures { IfSome result (λ left. left.length ≤ length flow.old) }
{
    let n = flow.len();
    let step = read_line(cases, n)?;
    let size = n + 233 + numbers_size(step);
    let mut rest = [0u8; MOST_REST];
    if !desk::read_next(cases, &mut rest, size) {
        return None;
    }
    step_on(rt, flow, step, &rest, last)
}

// The steps of a case, each on the flow and with the record that the one before it left; false where one of them is not there.
fn run_steps(
    rt: &HostRuntime,
    cases: &mut File,
    flow: &mut [u8],
    count: usize,
    made: KeptSums,
) -> bool {
    let mut length = flow.len();
    let mut kept = made;
    for _ in 0..count {
        let Some(left) = one_step(rt, cases, &mut flow[..length], kept) else {
            return false;
        };
        length = left.length;
        kept = left.kept;
    }
    true
}

// Makes the record of a flow, and so many steps, if a case can have so many.
fn one_case(rt: &HostRuntime, cases: &mut File, call: Numbers, flow: &mut [u8]) -> bool {
    let count = call.first as usize;
    if MOST_STEPS < count {
        return false;
    }
    let made = kept::keep(flow);
    print_keeping(rt, made);
    run_steps(rt, cases, flow, count, made.kept)
}

// The cases whose answers were written by hand, then those that the reference has answered.
fn main(rt: HostRuntime) {
    desk::run_cases::<ROOM, _>(&rt, b"calls", desk::CALL_HEADER, one_case);
    desk::run_cases::<ROOM, _>(&rt, b"vectors", desk::CALL_HEADER, one_case);
}
