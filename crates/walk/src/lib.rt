// The walk over a flow, record by record, forward only.
#![tactic(auto)]

ghost use Rattle.std.specs.Prelude.{◌≡◌};
ghost use Rattle.walk.specs.Walk.{place_next, answer_at, place_after, step_at, HandedBack, walker_at, SteppedOn};

use layout::Flow;
use refusal::Refusal;

// Where a walk stands: the number of records shown.
#[derive(Clone, Copy)]
pub struct WalkPlace {
    pub shown: usize,
}

impl WalkPlace {
    // The place after one more record. The largest number has none after it, and stays.
    fn next(self) -> Self
        ensures { result ≡ place_next self }
    {
        WalkPlace {
            shown: self.shown.saturating_add(1),
        }
    }
}

// A step: its answer, the number of the record shown, none where there are no more, or the refusal of the flow; and the place after it.
#[derive(Clone, Copy)]
pub struct Step {
    pub answer: Result<Option<usize>, Refusal>,
    pub next: WalkPlace,
}

// A walk: the flow that is lent to it, and its present place.
#[derive(Clone, Copy)]
pub struct Walker<'a> {
    pub flow: &'a [u8],
    pub place: WalkPlace,
}

// What a step of a walk hands back: the record as a part of the flow, the answer, and the walk moved on.
#[derive(Clone, Copy)]
pub struct Stepped<'a> {
    pub part: &'a [u8],
    pub answer: Result<Option<usize>, Refusal>,
    pub walker: Walker<'a>,
}

// The answer of a step from a place. The flow is judged first.
fn answer_at(flow: &[u8], place: WalkPlace) -> Result<Option<usize>, Refusal>
    ensures { result ≡ answer_at flow.now place }
{
    judge::judge(flow).verdict?;
    let shown = place.shown;
    if shown < flow.len() / Flow::RECORD {
        return Ok(Some(shown + 1));
    }
    Ok(None)
}

// The place after an answer: the next one after a record shown, else the same.
fn place_after(answer: Result<Option<usize>, Refusal>, place: WalkPlace) -> WalkPlace
    ensures { result ≡ place_after answer place }
{
    match answer {
        Ok(shown) => match shown {
            Some(_) => place.next(),
            None => place,
        },
        Err(_) => place,
    }
}

// A step from a place, for a caller that holds no walker.
pub fn step_at(flow: &[u8], place: WalkPlace) -> Step
    ensures { result ≡ step_at flow.now place }
{
    let answer = answer_at(flow, place);
    let next = place_after(answer, place);
    Step { answer, next }
}

// The record that an answer shows, within the caller's own buffer; an empty part where it shows none.
pub fn part_at(flow: &[u8], answer: Result<Option<usize>, Refusal>) -> &[u8]
    ensures { HandedBack flow.entry answer result }
{
    match answer {
        Ok(shown) => match shown {
            Some(k) => judge::nth_record(flow, k),
            None => &flow[0..0],
        },
        Err(_) => &flow[0..0],
    }
}

// A walk from the start of a flow.
pub fn new<'a>(flow: &'a [u8]) -> Walker<'a>
    ensures { result ≡ walker_at flow.entry 0 }
{
    Walker {
        flow,
        place: WalkPlace { shown: 0 },
    }
}

// A step of a walk: the record that it shows within the flow, or an empty part, and the walk at the place after it.
pub fn step_on<'a>(w: Walker<'a>) -> Stepped<'a>
    ensures { SteppedOn w.entry result }
{
    let flow = w.flow;
    let place = w.place;
    let answer = answer_at(flow, place);
    let part = part_at(flow, answer);
    let next = place_after(answer, place);
    Stepped {
        part,
        answer,
        walker: Walker { flow, place: next },
    }
}
