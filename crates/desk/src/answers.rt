// Answers, as they are printed.
use crate::output::print_bytes;
use judge::Judgement;
use refusal::Refusal;

// A judgement, as document 01 has it printed.
pub fn print_judgement(rt: &HostRuntime, judgement: Judgement) {
    let mut text = [0u8; report::ROOM];
    let n = report::judgement_text(judgement, &mut text);
    print_bytes(rt, &text[..n]);
}

// A refusal: its number, the record and the position.
pub fn print_refusal(rt: &HostRuntime, why: Refusal) {
    let mut text = [0u8; report::ROOM];
    let n = report::refusal_text(why.number, why.record, why.position, &mut text);
    print_bytes(rt, &text[..n]);
}

// What is answered of records of the F24 EP form: how many payments they are, and the sum of their totals, or the refusal.
pub fn print_payments(rt: &HostRuntime, answer: Result<(u64, u64), Refusal>) {
    match answer {
        Ok((count, sum)) => {
            let _ = println!(rt; "ACCEPTED {count} {sum}");
        }
        Err(why) => print_refusal(rt, why),
    }
}

// What the desk is shown of one delega: its numbers and then its sums, or the refusal.
pub fn print_delega(rt: &HostRuntime, flow: &[u8], number: u64) {
    let mut text = [0u8; report::ROOM];
    let n = report::delega_text(number, delega::delega(flow, number), &mut text);
    print_bytes(rt, &text[..n]);
}

// What the desk is shown of one line: the number of its record and below it the record, or the refusal.
pub fn print_line(rt: &HostRuntime, flow: &[u8], delega: u64, subtype: u64, nth: u64) {
    let found = find::find(flow, delega, subtype, nth);
    match found {
        Ok(k) => {
            let mut text = [0u8; report::ROOM];
            let n = report::line_text(k, &mut text);
            print_bytes(rt, &text[..n]);
            print_bytes(rt, find::part_of(flow, found));
            print_bytes(rt, b"\n");
        }
        Err(why) => print_refusal(rt, why),
    }
}

// A record with its number.
pub fn print_record(rt: &HostRuntime, k: usize, part: &[u8]) {
    let _ = print!(rt; "{k} ");
    print_bytes(rt, part);
    print_bytes(rt, b"\n");
}

// How many records a judgement by portions has examined, and in how many calls.
pub fn print_examined(rt: &HostRuntime, records: usize, calls: usize) {
    let _ = println!(rt; "EXAMINED {records} {calls}");
}

// A word for what was done, and the number that it is told with.
pub fn print_counted(rt: &HostRuntime, word: &str, n: usize) {
    let _ = println!(rt; "{word} {n}");
}

// The fields that a rebalancing changed, each by the number of its record and where it starts: the first `count` pairs of the list, so far as it has them.
pub fn print_changes(rt: &HostRuntime, list: &[u64], count: usize) {
    let (pairs, _) = list.as_chunks::<2>();
    for [at, start] in pairs.iter().take(count) {
        let _ = println!(rt; "CHANGED {at} {start}");
    }
}
