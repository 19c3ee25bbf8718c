// Prints the final balance, the lines, the sections used and the section sums of one delega of the flow in a file.
#![tactic(auto)]

use desk::Command;

fn main(rt: HostRuntime) {
    let command = Command {
        rt: &rt,
        name: b"delega",
    };
    if desk::count_words(&rt) != 3 {
        command.misused(b"two arguments are needed", b"FILE NUMBER");
        return;
    }
    if let Some(number) = command.number_at(b"NUMBER", 2) {
        command.with_flow(1, |flow| desk::print_delega(&rt, flow, number));
    }
}
