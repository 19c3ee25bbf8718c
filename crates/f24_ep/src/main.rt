// The judging program for the F24 EP form: the records in the file that its argument names, or from standard input where it has none, are judged, and the answer is
// printed. They are read one by one, and one is held in memory at a time.
// What a read puts into the room is outside what a contract can say: it is promised that there are bytes of which the answer is the judgement, and not that the file has them.
#![tactic(auto)]

ghost use Rattle.std.specs.Prelude.{false, ◌≡◌, IfSome};
ghost use Rattle.f24_ep.specs.Reading.{FromPieces, FromBytes};

use desk::{Command, Source};
use ep::{Course, Payments};
use ep_accounts::RECORD;
use refusal::Refusal;

// The most pieces that are read. So many records are one too many, and what follows alters nothing.
const MOST_PIECES: usize = ep::MOST_RECORDS + 1;

// What is left unread alters nothing: there are too many records already.
fn left_unread(course: Course) -> Course
    requires { (course.fits ≡ false) × FromPieces course }
    ensures { FromPieces result }
{
    course
}

// Takes an open file, which goes by the word, piece by piece, each a record but for the last; up to its end, or until there are too many. None where a read fails.
// Nothing is read after an end, so that a clerk who types ends once.
fn judge_open(command: &Command, word: &[u8], source: &mut Source) -> Option<Course>
    ensures { IfSome result FromPieces }
{
    let mut course = ep::start();
    let mut room = [0u8; RECORD];
    for _ in 0..MOST_PIECES {
        let n = command.read_open(word, source, &mut room)?;
        if n == 0 {
            return Some(course);
        }
        course = ep::take(course, &room[..n]);
        if n < RECORD {
            return Some(course);
        }
    }
    Some(left_unread(course))
}

// The answer for an open file; none where a read fails.
fn answer_open(
    command: &Command,
    word: &[u8],
    source: &mut Source,
) -> Option<Result<Payments, Refusal>>
    ensures { IfSome result FromBytes }
{
    let course = judge_open(command, word, source)?;
    Some(ep::answered(course))
}

// Judges what a word names. Where it cannot be read, that has been said, and there is no answer.
fn judge_named(command: &Command, word: &[u8]) {
    let Some(mut source) = command.open_named(word) else {
        return;
    };
    if let Some(answer) = answer_open(command, word, &mut source) {
        desk::print_payments(command.rt, answer.map(|all| (all.count, all.sum)));
    }
}

fn main(rt: HostRuntime) {
    let command = Command {
        rt: &rt,
        name: b"ep",
    };
    if 2 < desk::count_words(&rt) {
        command.misused(b"one file is judged at a time", b"FILE");
        return;
    }
    let mut word = [0u8; desk::LONGEST_NAME];
    if let Some(n) = command.name_at(b"FILE", 1, &mut word) {
        judge_named(&command, &word[..n]);
    }
}
