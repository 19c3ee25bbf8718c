// What a judgement can have handed back, as far as its numbers tell without a flow.
ghost use Rattle.std.specs.Prelude.{◌≡◌, ◌<◌, get_or};
ghost use Rattle.state.specs.Numbers.{state_of};
ghost use Rattle.portion.specs.Portion.{refusable, course_right, at_most, counts_right, sums_right, possible};

use crate::{Course, Progress};
use layout::{Amount, Flow};
use order::Stage;

// Whether no number is above the most.
pub fn at_most(numbers: &[u64], most: u64) -> bool
    ensures { result ≡ at_most most numbers.now }
{
    for &n in numbers {
        if most < n {
            return false;
        }
    }
    true
}

// Whether a judgement can give a refusal after so many records.
fn is_refusable(seen: u64, number: u64, at: usize, position: usize) -> bool
    requires { seen < 1000 }
    ensures { result ≡ refusable seen number at position }
{
    let next = at as u64 == seen + 1;
    match number {
        0 => false,
        1 | 2 => at == 0 && position == 0,
        5 => next && position == 0,
        _ => next && at <= Flow::MOST_RECORDS && (number <= 20 || number == 26),
    }
}

// Whether a judgement can stand so after so many records.
fn course_right(seen: u64, course: Course) -> bool
    requires { seen < 1000 }
    ensures { result ≡ course_right seen course }
{
    match course {
        Course::Going | Course::Accepted => true,
        Course::Refused(number, at, position) => is_refusable(seen, number, at, position),
        Course::Foreign => false,
    }
}

// Whether counts, phase and section are such as a judgement can have.
fn counts_right(kept: [u64; 29]) -> bool
    ensures { result ≡ counts_right (state_of kept) }
{
    let seen = kept[0];
    seen <= Flow::MOST_RECORDS as u64
        && kept[1] <= seen
        && kept[2] <= seen
        && kept[5] <= seen
        && kept[3] <= Stage::TAIL as u64
        && kept[4] <= 4
}

// Whether the sums are such as a judgement can have.
fn sums_right(kept: [u64; 29]) -> bool
    requires { get_or kept 0 0 < 1000 }
    ensures { result ≡ sums_right kept }
{
    let most = kept[0] * Amount::LARGEST;
    kept[7] <= most && kept[6] <= most - kept[7] && at_most(&kept[8..29], most)
}

// Whether a judgement of some flow can have handed this back.
pub fn is_possible(x: Progress) -> bool
    ensures { result ≡ possible x }
{
    let kept = x.kept;
    counts_right(kept) && course_right(kept[0], x.course) && sums_right(kept)
}
