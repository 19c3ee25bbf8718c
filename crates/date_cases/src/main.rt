// The run cases of the date: a stored flow is judged with each number of six digits in the place of its date, by year, then month, then day. Where the
// answer is another than for the date before, the date and the answer are printed. So these lines tell a million answers.
#![tactic(auto)]

use layout::Position;
use refusal::Refusal;

// The refusal of a flow; none where it is accepted.
fn refusal_of(flow: &[u8]) -> Option<Refusal> {
    judge::judge(flow).verdict.err()
}

// The i-th date: the last two digits of i are its day, those before them its month, the first two its year.
fn date_at(i: u64) -> u64 {
    i % 100 * 10000 + i / 100 % 100 * 100 + i / 10000 % 100
}

// A date in its six digits, and its answer.
fn print_answer(rt: &HostRuntime, date: u64, answer: Option<Refusal>) {
    let _ = print!(rt; "{date:06} ");
    match answer {
        None => desk::print_bytes(rt, b"ACCEPTED\n"),
        Some(why) => desk::print_refusal(rt, why),
    }
}

// The answer to a flow with this date.
fn answer_on(flow: &mut [u8], date: u64) -> Option<Refusal> {
    text::put_number(flow, Position::CREATION_DATE - 1, 6, date);
    refusal_of(flow)
}

// Before the first date there is no answer, so the first is printed.
fn main(rt: HostRuntime) {
    let mut flow = [0u8; 960];
    if let Some(mut file) = desk::open_cases(&rt, b"flow") {
        desk::read_full(&mut file, &mut flow);
    }
    let mut before: Option<Option<Refusal>> = None;
    for i in 0..1000000 {
        let date = date_at(i);
        let answer = answer_on(&mut flow, date);
        if before != Some(answer) {
            print_answer(&rt, date, answer);
        }
        before = Some(answer);
    }
}
