// Shows one line of the flow in a file: the number of its record and the record itself, or the refusal.
#![tactic(auto)]

use desk::Command;

fn main(rt: HostRuntime) {
    let command = Command {
        rt: &rt,
        name: b"line",
    };
    if desk::count_words(&rt) != 5 {
        command.misused(b"four arguments are needed", b"FILE DELEGA SUBTYPE PLACE");
        return;
    }
    let Some(delega) = command.number_at(b"DELEGA", 2) else {
        return;
    };
    let Some(subtype) = command.number_at(b"SUBTYPE", 3) else {
        return;
    };
    let Some(nth) = command.number_at(b"PLACE", 4) else {
        return;
    };
    command.with_flow(1, |flow| desk::print_line(&rt, flow, delega, subtype, nth));
}
