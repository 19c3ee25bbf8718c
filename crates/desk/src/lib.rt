// What the desk's programs have in common: arguments, a flow read whole or saved, answers printed, one line for what went wrong; and, of the programs that the
// gate runs, how a stored case is read.
// What comes from or goes to a file or a stream, and what the arguments are, is outside what a contract can say: a function that only prints or
// asks promises that it is safe and ends. What can be said of an answer or of lent room is said.
#![tactic(auto)]

mod answers;
mod cases;
mod messages;
mod output;
mod reading;
mod replacing;
mod saving;

pub use answers::{
    print_changes, print_counted, print_delega, print_examined, print_judgement, print_line,
    print_payments, print_record, print_refusal,
};
pub use cases::{
    mark, next_case, numbers_of, open_cases, print_comparison, put_numbers, read_full, read_next,
    run_cases,
};
pub use output::print_bytes;
pub use reading::{LONGEST_NAME, Source, count_words, number_at, path_at, text_of, word_at};
pub use replacing::{Access, Old, Target};
pub use saving::{create, create_beside, known_of, put_name, remove, rename, stored};

// A command of the desk: its name, as the clerk types it, and the handle by which it runs.
#[derive(Clone, Copy)]
pub struct Command<'a> {
    pub rt: &'a HostRuntime,
    pub name: &'a [u8],
}

// The five numbers of a run case's call.
#[derive(Clone, Copy)]
pub struct Numbers {
    pub first: u64,
    pub second: u64,
    pub third: u64,
    pub fourth: u64,
    pub fifth: u64,
}

// No file of run cases has more.
pub const MOST_CASES: usize = 10000;

// The header of a run case that has a name and a length, and of one that has the five numbers of a call between them.
pub const FLOW_HEADER: usize = 48;

pub const CALL_HEADER: usize = 153;

// What stands in the list of a run case before the call: numbers that no call writes, each its own, so that one that moved, or that is told and not listed, is seen.
pub const FIRST_MARK: u64 = 9_000_000_000;
