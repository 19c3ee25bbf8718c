// Corrects one line of the flow in a file, and saves the corrected flow there.
#![tactic(auto)]

use desk::{Command, Target};

// A line to correct, and its new amounts.
#[derive(Clone, Copy)]
struct Call {
    delega: u64,
    subtype: u64,
    nth: u64,
    debit: u64,
    credit: u64,
}

// Corrects a flow that was read from a file.
fn correct_flow(target: &Target, flow: &mut [u8], call: Call) {
    let rt = target.command.rt;
    match correct::correct(
        flow,
        call.delega,
        call.subtype,
        call.nth,
        call.debit,
        call.credit,
    ) {
        Ok(()) => {
            if target.replace(b"corrected", flow) {
                desk::print_judgement(rt, judge::judge(flow));
            }
        }
        Err(why) => desk::print_refusal(rt, why),
    }
}

// Reads the new amounts, and corrects the named line of the flow in the file that the first argument names.
fn correct_line(command: &Command, delega: u64, subtype: u64, nth: u64) {
    let Some(debit) = command.number_at(b"DEBIT", 5) else {
        return;
    };
    let Some(credit) = command.number_at(b"CREDIT", 6) else {
        return;
    };
    let call = Call {
        delega,
        subtype,
        nth,
        debit,
        credit,
    };
    command.change_file(|target, flow| correct_flow(target, flow, call));
}

fn main(rt: HostRuntime) {
    let command = Command {
        rt: &rt,
        name: b"correct",
    };
    if desk::count_words(&rt) != 7 {
        command.misused(
            b"six arguments are needed",
            b"FILE DELEGA SUBTYPE PLACE DEBIT CREDIT",
        );
        return;
    }
    let Some(delega) = command.number_at(b"DELEGA", 2) else {
        return;
    };
    let Some(subtype) = command.number_at(b"SUBTYPE", 3) else {
        return;
    };
    let Some(nth) = command.number_at(b"PLACE", 4) else {
        return;
    };
    correct_line(&command, delega, subtype, nth);
}
