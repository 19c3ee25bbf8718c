// The run cases of the writing: the flow of each stored sheet is written into a room. Its name, the answer, whether the room is then the expected one and, where
// a flow is written, its judgement are printed.
// A case is a line of 153 bytes: its name in 40, then, each after a space, five numbers in 20 digits and a length in six. The first number is the length of the
// room, and the length is that of the sheet. Below it stand the sheet, a line end, the bytes expected in the room, and a line end.
#![tactic(auto)]

use desk::Numbers;
use std::fs::File;

// The longest room of a case.
const MOST_ROOM: usize = 66_000;

// The longest sheet, and the line end.
const SHEET_ROOM: usize = 70_001;

// What stands in a room before the call: characters that go through ninety and then begin again, so that a byte that moved is seen.
fn mark(room: &mut [u8]) {
    for (i, place) in room.iter_mut().enumerate() {
        *place = 33 + (i % 90) as u8;
    }
}

// Writes the flow of a sheet, and prints what comes of it.
fn make(rt: &HostRuntime, sheet: &[u8], room: &mut [u8], expected: &[u8]) {
    match write::write(sheet, room) {
        Ok(length) => {
            desk::print_counted(rt, "WRITTEN", length);
            desk::print_comparison(rt, room, expected);
            desk::print_judgement(rt, judge::judge(&room[..length]));
        }
        Err(why) => {
            desk::print_refusal(rt, why);
            desk::print_comparison(rt, room, expected);
        }
    }
}

// One case, below whose sheet stands the expected room; false where it is not there, or longer than a room can be.
fn one_case(rt: &HostRuntime, cases: &mut File, call: Numbers, sheet: &mut [u8]) -> bool {
    let size = call.first as usize;
    let mut room = [0u8; MOST_ROOM];
    let mut expected = [0u8; MOST_ROOM + 1];
    if MOST_ROOM < size || !desk::read_next(cases, &mut expected, size) {
        return false;
    }
    mark(&mut room);
    make(rt, sheet, &mut room[..size], &expected[..size]);
    true
}

// The cases whose rooms were written by hand, then the sheets that the reference has answered.
fn main(rt: HostRuntime) {
    desk::run_cases::<SHEET_ROOM, _>(&rt, b"sheets", desk::CALL_HEADER, one_case);
    desk::run_cases::<SHEET_ROOM, _>(&rt, b"vectors", desk::CALL_HEADER, one_case);
}
