// The records as they are read, piece by piece: each piece a whole record, but for the last, which may be cut short. Only the piece at hand is held in memory. The first fault
// is kept while the records are counted to the end, since a length that is wrong goes before it.
ghost use Rattle.std.specs.Prelude.{◌≡◌, ◌<◌, length};
ghost use Rattle.ep.specs.Stream.{start_course, unfit, counted, took, answered};
ghost use Rattle.ep.specs.Bounds.{Sound};

use crate::{Course, MOST_RECORDS, Payments, ended, no_tally, refused, step_by};
use ep_accounts::RECORD;
use refusal::Refusal;

// Before the first piece.
pub fn start() -> Course
    ensures { result ≡ start_course }
{
    Course {
        fits: true,
        records: 0,
        tally: no_tally(),
        outcome: Ok(()),
    }
}

// After a piece that is no record, or one record too many.
fn unfit(course: Course) -> Course
    ensures { result ≡ unfit course }
{
    Course {
        fits: false,
        ..course
    }
}

// After one record more. Behind a fault it is only counted.
fn counted(course: Course, rec: &[u8]) -> Course
    requires { (length rec.now ≡ 1900) × Sound course × (course.records < 10000) }
    ensures { result ≡ counted course rec.now }
{
    let records = course.records + 1;
    if course.outcome.is_err() {
        return Course {
            fits: true,
            records,
            ..course
        };
    }
    let done = step_by(course.tally, rec);
    Course {
        fits: true,
        records,
        tally: done.tally,
        outcome: done.outcome,
    }
}

// After one piece more.
pub fn take(course: Course, piece: &[u8]) -> Course
    requires { Sound course }
    ensures { result ≡ took course piece.now }
{
    if course.fits && piece.len() == RECORD && course.records < MOST_RECORDS {
        counted(course, piece)
    } else {
        unfit(course)
    }
}

// The answer where no piece is left. A fault is told with position 0, whatever position stands in the course.
pub fn answered(course: Course) -> Result<Payments, Refusal>
    requires { Sound course }
    ensures { result ≡ answered course }
{
    if !course.fits || course.records == 0 {
        return Err(Refusal::NO_FORM_RECORDS);
    }
    if let Err(why) = course.outcome {
        return Err(refused(why.number, why.record));
    }
    ended(course.tally)
}
