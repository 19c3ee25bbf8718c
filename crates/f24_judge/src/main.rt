// The judging program: the flow in the file that its argument names, or from standard input where it has none, is judged, and the answer printed. With
// --portion N before the file it is judged over several calls, each of which examines N records at most, and behind the answer stands what they examined.
#![tactic(auto)]

ghost use Rattle.std.specs.Prelude.{◌≡◌};
ghost use Rattle.f24_judge.specs.InTurn.{goes_on, calls_of};

use desk::Command;
use judge::Judgement;
use layout::Flow;
use portion::{Course, Portion};
use refusal::Refusal;

// What calls in a row have come to: the answer of the last one, and how many they were.
#[derive(Clone, Copy)]
struct Calls {
    last: Portion,
    made: usize,
}

// Whether a judgement that stands so has not ended.
fn goes_on(course: Course) -> bool
    ensures { result ≡ goes_on course }
{
    matches!(course, Course::Going)
}

// Calls from the start, each from what the one before it handed back, until one ends the judgement. Portions above zero take at most as many as a flow has records.
fn call_on(flow: &[u8], portion: usize) -> Calls
    ensures { result ≡ calls_of flow.now portion }
{
    let mut last = portion::judge_portion(flow, portion, portion::start());
    for made in 1..Flow::MOST_RECORDS {
        if !goes_on(last.answer) {
            return Calls { last, made };
        }
        last = portion::judge_portion(flow, portion, last.next);
    }
    Calls {
        last,
        made: Flow::MOST_RECORDS,
    }
}

// Prints the answer that has ended a judgement; false where it has not ended.
fn print_ended(rt: &HostRuntime, last: Portion) -> bool {
    match last.answer {
        Course::Going | Course::Foreign => false,
        Course::Accepted => {
            desk::print_judgement(
                rt,
                Judgement {
                    verdict: Ok(()),
                    summary: last.summary,
                },
            );
            true
        }
        Course::Refused(number, at, position) => {
            desk::print_refusal(
                rt,
                Refusal {
                    number,
                    record: at,
                    position,
                },
            );
            true
        }
    }
}

// Prints what calls have come to. From the start, and with portions above zero, they end.
fn print_calls(command: &Command, calls: Calls) {
    let last = calls.last;
    if print_ended(command.rt, last) {
        desk::print_examined(command.rt, last.examined, calls.made);
    } else {
        command.tell_of(
            b"FILE",
            b" is not judged: the calls have come to no answer\n",
        );
    }
}

// Reads the portion, and judges by it the flow that the third argument names.
fn judge_portions(command: &Command) {
    let Some(portion) = command.number_at(b"N", 2) else {
        return;
    };
    if portion == 0 {
        command.no_portion(2);
        return;
    }
    command.with_flow(3, |flow| {
        print_calls(command, call_on(flow, portion as usize))
    });
}

// Whether the arguments ask for a judgement by portions: they are three, and the first is that word.
fn asks_portions(rt: &HostRuntime) -> bool {
    let mut word = [0u8; 9];
    let n = desk::word_at(rt, 1, &mut word);
    desk::count_words(rt) == 4 && text::same_bytes(&word[..n], b"--portion")
}

fn main(rt: HostRuntime) {
    let command = Command {
        rt: &rt,
        name: b"judge",
    };
    if asks_portions(&rt) {
        judge_portions(&command);
        return;
    }
    if 2 < desk::count_words(&rt) {
        command.misused(
            b"one flow is judged at a time",
            b"FILE, or ./f24 judge --portion N FILE",
        );
        return;
    }
    command.with_flow(1, |flow| desk::print_judgement(&rt, judge::judge(flow)));
}
