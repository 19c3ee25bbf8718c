// The judgement by portions: a call examines no more records than it is allowed, and hands back what the next one goes on from.
#![tactic(auto)]

mod bounds;

ghost use Rattle.std.specs.Prelude.{◌≡◌, true, ◌-◌, ◌≤◌, length, get_or};
ghost use Rattle.state.specs.Numbers.{state_of};
ghost use Rattle.judge.specs.Flow.{no_summary, summary_of, head_name_of};
ghost use Rattle.portion.specs.Portion.{start_progress, ended_by, examined_by, summary_by, told, foreign, possible, held_name, went_on, refused_now, gone_on, portioned};
ghost use Rattle.portion.specs.Inner.{last_of, course_by, Goes};

use amounts::Sums;
pub use bounds::at_most;
use bounds::is_possible;
use judge::Summary;
use layout::{Flow, Part};
use refusal::Refusal;

// How a judgement stands: it goes on, or has ended with acceptance or with a refusal. As an answer also that the state is none that a judgement of this flow
// can have handed back.
#[derive(Clone, Copy)]
pub enum Course {
    Going,
    Accepted,
    Refused(u64, usize, usize),
    Foreign,
}

// What is handed back: how the judgement stands, the numbers of its state, and the support name in the head.
#[derive(Clone, Copy)]
pub struct Progress {
    pub course: Course,
    pub kept: [u64; 29],
    pub name: [u8; 20],
}

// What a call answers: how the judgement stands, how many records have been examined so far, the summary, which is all zeros unless the flow is accepted, and
// what the next call goes on from.
// Kept: no summary within the answer, since the theorems `foreign-then` and `series-goes-on` speak of the zeros beside it.
#[derive(Clone, Copy)]
pub struct Portion {
    pub answer: Course,
    pub examined: usize,
    pub summary: Summary,
    pub next: Progress,
}

// What a judgement starts from.
pub fn start() -> Progress
    ensures { result ≡ start_progress }
{
    Progress {
        course: Course::Going,
        kept: [0; 29],
        name: [0; 20],
    }
}

// A summary of zeros.
fn no_summary() -> Summary
    ensures { result ≡ no_summary }
{
    Summary {
        deleghe: 0,
        records: 0,
        total: 0,
        lines: 0,
        sums: [Sums {
            debit: 0,
            credit: 0,
        }; 5],
    }
}

// How many lines have been seen: the records less those that are no lines.
fn lines_in(kept: [u64; 29]) -> u64
    ensures { result ≡ get_or kept 0 0 - get_or kept 1 0 }
{
    kept[0].saturating_sub(kept[1])
}

// The summary of a state, by its numbers.
fn summary_of(kept: [u64; 29]) -> Summary
    ensures { result ≡ summary_of (state_of kept) }
{
    Summary {
        deleghe: kept[2],
        records: kept[0] as usize,
        total: kept[6],
        lines: lines_in(kept),
        sums: state::sums_at(&kept, 19),
    }
}

// How many records have been examined where so many have passed.
fn examined_by(course: Course, seen: usize) -> usize
    ensures { result ≡ examined_by course seen }
{
    match course {
        Course::Going | Course::Accepted | Course::Refused(5, _, _) => seen,
        Course::Refused(_, at, _) => at,
        Course::Foreign => 0,
    }
}

// The summary where the flow is accepted, else one of zeros.
fn summary_by(course: Course, kept: [u64; 29]) -> Summary
    ensures { result ≡ summary_by course (state_of kept) }
{
    match course {
        Course::Accepted => summary_of(kept),
        _ => no_summary(),
    }
}

// The answer that a state gives.
fn told_by(x: Progress) -> Portion
    ensures { result ≡ told x }
{
    let answer = x.course;
    let kept = x.kept;
    let examined = examined_by(answer, kept[0] as usize);
    let summary = summary_by(answer, kept);
    Portion {
        answer,
        examined,
        summary,
        next: x,
    }
}

// The answer to a state that no judgement of this flow can have handed back.
fn foreign_to(x: Progress) -> Portion
    ensures { result ≡ foreign x }
{
    Portion {
        answer: Course::Foreign,
        examined: 0,
        summary: no_summary(),
        next: x,
    }
}

// The support name in the head of a flow.
fn head_name(flow: &[u8]) -> [u8; 20]
    requires { 120 ≤ length flow.now }
    ensures { result ≡ head_name_of flow.now }
{
    let mut name = [0u8; 20];
    name.copy_from_slice(&flow[Part::SUPPORT_NAME..Part::SUPPORT_NAME_END]);
    name
}

// The name that a judgement goes on with: the flow's own where no record has been seen.
fn held_name(flow: &[u8], x: Progress) -> [u8; 20]
    requires { 120 ≤ length flow.now }
    ensures { result ≡ held_name flow.now x }
{
    if x.kept[0] == 0 {
        return head_name(flow);
    }
    x.name
}

// How many of a flow's records will have been examined at most.
fn last_of(seen: usize, portion: usize, count: usize) -> usize
    requires { seen ≤ count }
    ensures { result ≡ last_of seen portion count }
{
    if count - seen <= portion {
        return count;
    }
    seen + portion
}

// How a judgement stands that has ended.
fn ended_by(verdict: Result<(), Refusal>) -> Course
    ensures { result ≡ ended_by verdict }
{
    match verdict {
        Ok(()) => Course::Accepted,
        Err(why) => Course::Refused(why.number, why.record, why.position),
    }
}

// How it stands after a portion: where all records that were allowed have passed and the flow has more, it goes on.
fn course_by(verdict: Result<(), Refusal>, seen: usize, last: usize, count: usize) -> Course
    ensures { result ≡ course_by verdict seen last count }
{
    if seen < last {
        return ended_by(verdict);
    }
    if last < count {
        return Course::Going;
    }
    ended_by(verdict)
}

// The judgement goes on over at most so many records.
fn go_on(flow: &[u8], portion: usize, x: Progress) -> Progress
    requires { Goes flow.now x }
    ensures { result ≡ went_on flow.now portion x }
{
    if portion == 0 {
        return x;
    }
    let mut kept = x.kept;
    let name = held_name(flow, x);
    let count = flow.len() / Flow::RECORD;
    let last = last_of(kept[0] as usize, portion, count);
    let judgement = judge::judge_from(&flow[..last * Flow::RECORD], &name, &mut kept);
    let verdict = judgement.verdict;
    let course = course_by(verdict, kept[0] as usize, last, count);
    Progress { course, kept, name }
}

// Refusal 1 or 2, with the state as it is.
fn refuse(number: u64, x: Progress) -> Portion
    ensures { result ≡ told (refused_now number x) }
{
    let kept = x.kept;
    let name = x.name;
    told_by(Progress {
        course: Course::Refused(number, 0, 0),
        kept,
        name,
    })
}

// A call with a state that goes on.
fn judge_going(flow: &[u8], portion: usize, x: Progress) -> Portion
    requires { possible x ≡ true }
    ensures { result ≡ gone_on flow.now portion x }
{
    let n = flow.len();
    if Flow::MOST_BYTES < n {
        return refuse(1, x);
    }
    if n == 0 || n % Flow::RECORD != 0 {
        return refuse(2, x);
    }
    if (x.kept[0] as usize) < n / Flow::RECORD {
        return told_by(go_on(flow, portion, x));
    }
    foreign_to(x)
}

// Judges at most so many records of a flow, from where another call has left off or from the start.
pub fn judge_portion(flow: &[u8], portion: usize, from: Progress) -> Portion
    ensures { result ≡ portioned flow.now portion from }
{
    if !is_possible(from) {
        return foreign_to(from);
    }
    match from.course {
        Course::Going => judge_going(flow, portion, from),
        Course::Accepted | Course::Refused(_, _, _) => told_by(from),
        Course::Foreign => foreign_to(from),
    }
}
