// The linkable library: a flow judged, at once or by portions, one delega, one line, a correction, a flow written from a sheet, one rebalanced, and one from which
// deleghe are dropped, with the answer in a room of numbers that the caller lends; in `kept_calls`, the calls that take a record of sums; and, in `ep_calls`, the one for
// records of the F24 EP form.
// Each function returns 0, the number of a refusal, or 100 where a room is too short; the judgement by portions also 101 where it has not ended and 102 where it is
// given a foreign state. The numbers behind those that a function writes stay as they came.
// C calls them by the crate `f24_c`, which exports each under its name.
#![tactic(auto)]

pub mod ep_calls;
pub mod kept_calls;

ghost use Rattle.std.specs.Prelude.{◌≡◌};
ghost use Rattle.portion.specs.Portion.{start_progress};
ghost use Rattle.handed.specs.Room.{progress_numbers};
ghost use Rattle.f24.specs.Linked.{code_or, room_or};
ghost use Rattle.f24.specs.Linked.{judge_code, judge_room, delega_code, delega_room, find_code, find_room, correct_code, correct_room, correct_flow};
ghost use Rattle.f24.specs.Linked.{write_code, write_room, write_answer};
ghost use Rattle.f24.specs.Linked.{rebalance_code, rebalance_flow, rebalance_list, rebalance_answer};
ghost use Rattle.f24.specs.Linked.{drop_code, drop_flow, drop_answer};
ghost use Rattle.f24.specs.Linked.{portion_code, portion_state, portion_room};

// What is returned where a room is too short.
const NO_ROOM: u64 = 100;

// How many numbers each answer needs room for.
// Kept: equal numbers, and each is a constant of its own in the C interface (`F24_FIND_ROOM`, `F24_WRITE_ROOM`, ..).
const JUDGE_ROOM: usize = 14;

const DELEGA_ROOM: usize = 14;

const FIND_ROOM: usize = 2;

const CORRECT_ROOM: usize = 2;

const WRITE_ROOM: usize = 2;

const REBALANCE_ROOM: usize = 2;

const DROP_ROOM: usize = 2;

const PORTION_ROOM: usize = 15;

// How many numbers the state between two calls has.
const STATE_ROOM: usize = 53;

// Judges a flow. The answer is the number of deleghe and of records, the total, the number of lines, and the debit and credit of each section.
pub fn f24_judge(flow: &[u8], answer: &mut [u64]) -> u64
    ensures { (result ≡ judge_code flow.now answer.old)
        × (answer.new ≡ judge_room flow.now answer.old) }
{
    if answer.len() < JUDGE_ROOM {
        return NO_ROOM;
    }
    let judgement = judge::judge(flow);
    if let Err(why) = judgement.verdict {
        return answers::put_refusal(answer, why);
    }
    state::put(answer, &answers::summary_numbers(judgement.summary));
    0
}

// The final balance of the delega with this number, its lines, its set of sections and the size of it, and the debit and credit of each of its sections.
pub fn f24_delega(flow: &[u8], number: u64, answer: &mut [u64]) -> u64
    ensures { (result ≡ delega_code flow.now number answer.old)
        × (answer.new ≡ delega_room flow.now number answer.old) }
{
    if answer.len() < DELEGA_ROOM {
        return NO_ROOM;
    }
    let one = delega::delega(flow, number);
    if let Err(why) = one.verdict {
        return answers::put_refusal(answer, why);
    }
    state::put(answer, &answers::delega_numbers(one));
    0
}

// The number, counted from 1, of the record of one line.
pub fn f24_find(flow: &[u8], delega: u64, subtype: u64, nth: u64, answer: &mut [u64]) -> u64
    ensures { (result ≡ find_code flow.now delega subtype nth answer.old)
        × (answer.new ≡ find_room flow.now delega subtype nth answer.old) }
{
    if answer.len() < FIND_ROOM {
        return NO_ROOM;
    }
    answers::put_number(answer, find::find(flow, delega, subtype, nth))
}

// Gives one line of a flow a new debit and credit. Nothing is written to the room where that is done.
pub fn f24_correct(
    flow: &mut [u8],
    delega: u64,
    subtype: u64,
    nth: u64,
    debit: u64,
    credit: u64,
    answer: &mut [u64],
) -> u64
    ensures { (result ≡ correct_code flow.old delega subtype nth debit credit answer.old)
        × (flow.new ≡ correct_flow flow.old delega subtype nth debit credit answer.old)
        × (answer.new ≡ correct_room flow.old delega subtype nth debit credit answer.old) }
{
    if answer.len() < CORRECT_ROOM {
        return NO_ROOM;
    }
    match correct::correct(flow, delega, subtype, nth, debit, credit) {
        Ok(()) => 0,
        Err(why) => answers::put_refusal(answer, why),
    }
}

// Writes the flow of a working sheet into the room that the caller lends. The answer is its length.
pub fn f24_write(sheet: &[u8], room: &mut [u8], answer: &mut [u64]) -> u64
    ensures { (result ≡ write_code sheet.now room.old answer.old)
        × (room.new ≡ write_room sheet.now room.old answer.old)
        × (answer.new ≡ write_answer sheet.now room.old answer.old) }
{
    if answer.len() < WRITE_ROOM {
        return NO_ROOM;
    }
    answers::put_number(answer, write::write(sheet, room))
}

// Rebalances a flow, and lists each field that changed by record and start, two numbers for each. The answer is how many these are.
pub fn f24_rebalance(flow: &mut [u8], changed: &mut [u64], answer: &mut [u64]) -> u64
    ensures { (result ≡ rebalance_code flow.old changed.old answer.old)
        × (flow.new ≡ rebalance_flow flow.old changed.old answer.old)
        × (changed.new ≡ rebalance_list flow.old changed.old answer.old)
        × (answer.new ≡ rebalance_answer flow.old changed.old answer.old) }
{
    if answer.len() < REBALANCE_ROOM {
        return NO_ROOM;
    }
    answers::put_number(answer, mend::mend(flow, changed))
}

// Drops the deleghe with these numbers from a flow. The answer is the new length of the flow; spaces stand behind it.
pub fn f24_drop(flow: &mut [u8], numbers: &[u64], answer: &mut [u64]) -> u64
    ensures { (result ≡ drop_code flow.old numbers.now answer.old)
        × (flow.new ≡ drop_flow flow.old numbers.now answer.old)
        × (answer.new ≡ drop_answer flow.old numbers.now answer.old) }
{
    if answer.len() < DROP_ROOM {
        return NO_ROOM;
    }
    answers::put_number(answer, dropping::drop_deleghe(flow, numbers))
}

// The state from which a judgement by portions starts.
pub fn f24_start(state: &mut [u64]) -> u64
    ensures { (result ≡ code_or 53 state.old 0)
        × (state.new ≡ room_or 53 state.old (progress_numbers start_progress)) }
{
    if state.len() < STATE_ROOM {
        return NO_ROOM;
    }
    state::put(state, &handed::progress_numbers(portion::start()));
    0
}

// Judges at most so many records of a flow, from the state that is lent, which is then the one after them. The answer is the number of records examined so far,
// and behind it, where the judgement has ended, what `f24_judge` writes.
pub fn f24_judge_portion(flow: &[u8], portion: u64, state: &mut [u64], answer: &mut [u64]) -> u64
    ensures { (result ≡ portion_code flow.now portion state.old answer.old)
        × (state.new ≡ portion_state flow.now portion state.old answer.old)
        × (answer.new ≡ portion_room flow.now portion state.old answer.old) }
{
    if state.len() < STATE_ROOM || answer.len() < PORTION_ROOM {
        return NO_ROOM;
    }
    let part = portion::judge_portion(flow, portion as usize, handed::progress_in(state));
    answers::hand_back(state, part);
    answers::put_portion(answer, part);
    answers::course_code(part.answer)
}
