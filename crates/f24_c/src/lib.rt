// The library to link with programs in C or Rust, `libf24.a`: each function of the crate `f24` under its own name and with its own clauses, as `include/f24.h` declares it.
#![tactic(auto)]

mod ep_calls;
mod kept_calls;

ghost use Rattle.std.specs.Prelude.{◌≡◌};
ghost use Rattle.portion.specs.Portion.{start_progress};
ghost use Rattle.handed.specs.Room.{progress_numbers};
ghost use Rattle.f24.specs.Linked.{code_or, room_or};
ghost use Rattle.f24.specs.Linked.{judge_code, judge_room, delega_code, delega_room, find_code, find_room, correct_code, correct_room, correct_flow};
ghost use Rattle.f24.specs.Linked.{write_code, write_room, write_answer};
ghost use Rattle.f24.specs.Linked.{rebalance_code, rebalance_flow, rebalance_list, rebalance_answer};
ghost use Rattle.f24.specs.Linked.{drop_code, drop_flow, drop_answer};
ghost use Rattle.f24.specs.Linked.{portion_code, portion_state, portion_room};

// Judges a flow. The answer is the number of deleghe and of records, the total, the number of lines, and the debit and credit of each section.
#[unsafe(no_mangle)]
pub extern "C" fn f24_judge(flow: &[u8], answer: &mut [u64]) -> u64
    ensures { (result ≡ judge_code flow.now answer.old)
        × (answer.new ≡ judge_room flow.now answer.old) }
{
    f24::f24_judge(flow, answer)
}

// The final balance of the delega with this number, its lines, its set of sections and the size of it, and the debit and credit of each of its sections.
#[unsafe(no_mangle)]
pub extern "C" fn f24_delega(flow: &[u8], number: u64, answer: &mut [u64]) -> u64
    ensures { (result ≡ delega_code flow.now number answer.old)
        × (answer.new ≡ delega_room flow.now number answer.old) }
{
    f24::f24_delega(flow, number, answer)
}

// The number, counted from 1, of the record of one line.
#[unsafe(no_mangle)]
pub extern "C" fn f24_find(
    flow: &[u8],
    delega: u64,
    subtype: u64,
    nth: u64,
    answer: &mut [u64],
) -> u64
    ensures { (result ≡ find_code flow.now delega subtype nth answer.old)
        × (answer.new ≡ find_room flow.now delega subtype nth answer.old) }
{
    f24::f24_find(flow, delega, subtype, nth, answer)
}

// Gives one line of a flow a new debit and credit. Nothing is written to the room where that is done.
#[unsafe(no_mangle)]
pub extern "C" fn f24_correct(
    flow: &mut [u8],
    delega: u64,
    subtype: u64,
    nth: u64,
    debit: u64,
    credit: u64,
    answer: &mut [u64],
) -> u64
    ensures { (result ≡ correct_code flow.old delega subtype nth debit credit answer.old)
        × (flow.new ≡ correct_flow flow.old delega subtype nth debit credit answer.old)
        × (answer.new ≡ correct_room flow.old delega subtype nth debit credit answer.old) }
{
    f24::f24_correct(flow, delega, subtype, nth, debit, credit, answer)
}

// Writes the flow of a working sheet into the room that the caller lends. The answer is its length.
#[unsafe(no_mangle)]
pub extern "C" fn f24_write(sheet: &[u8], room: &mut [u8], answer: &mut [u64]) -> u64
    ensures { (result ≡ write_code sheet.now room.old answer.old)
        × (room.new ≡ write_room sheet.now room.old answer.old)
        × (answer.new ≡ write_answer sheet.now room.old answer.old) }
{
    f24::f24_write(sheet, room, answer)
}

// Rebalances a flow, and lists each field that changed by record and start, two numbers for each. The answer is how many these are.
#[unsafe(no_mangle)]
pub extern "C" fn f24_rebalance(flow: &mut [u8], changed: &mut [u64], answer: &mut [u64]) -> u64
    ensures { (result ≡ rebalance_code flow.old changed.old answer.old)
        × (flow.new ≡ rebalance_flow flow.old changed.old answer.old)
        × (changed.new ≡ rebalance_list flow.old changed.old answer.old)
        × (answer.new ≡ rebalance_answer flow.old changed.old answer.old) }
{
    f24::f24_rebalance(flow, changed, answer)
}

// Drops the deleghe with these numbers from a flow. The answer is the new length of the flow; spaces stand behind it.
#[unsafe(no_mangle)]
pub extern "C" fn f24_drop(flow: &mut [u8], numbers: &[u64], answer: &mut [u64]) -> u64
    ensures { (result ≡ drop_code flow.old numbers.now answer.old)
        × (flow.new ≡ drop_flow flow.old numbers.now answer.old)
        × (answer.new ≡ drop_answer flow.old numbers.now answer.old) }
{
    f24::f24_drop(flow, numbers, answer)
}

// The state from which a judgement by portions starts.
#[unsafe(no_mangle)]
pub extern "C" fn f24_start(state: &mut [u64]) -> u64
    ensures { (result ≡ code_or 53 state.old 0)
        × (state.new ≡ room_or 53 state.old (progress_numbers start_progress)) }
{
    f24::f24_start(state)
}

// Judges at most so many records of a flow, from the state that is lent, which is then the one after them. The answer is the number of records examined so far,
// and behind it, where the judgement has ended, what `f24_judge` writes.
#[unsafe(no_mangle)]
pub extern "C" fn f24_judge_portion(
    flow: &[u8],
    portion: u64,
    state: &mut [u64],
    answer: &mut [u64],
) -> u64
    ensures { (result ≡ portion_code flow.now portion state.old answer.old)
        × (state.new ≡ portion_state flow.now portion state.old answer.old)
        × (answer.new ≡ portion_room flow.now portion state.old answer.old) }
{
    f24::f24_judge_portion(flow, portion, state, answer)
}
