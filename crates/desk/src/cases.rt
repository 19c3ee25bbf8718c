// Run cases: a header with a name, the numbers of a call and the length of a flow; then the flow, and a line end.
ghost use Rattle.std.specs.Prelude.{◌≡◌, false, ◌≤◌, length, IfSome};
ghost use Rattle.args.specs.Decimal.{decimal_of};
ghost use Rattle.desk.specs.Header.{or_zero, numbers_of, size_of, length_in, number_in, numbers_in};
ghost use Rattle.desk.specs.Marks.{marks};

use crate::messages::fail;
use crate::output::print_bytes;
use crate::reading::{fill, opened};
use crate::{CALL_HEADER, FIRST_MARK, MOST_CASES, Numbers};
use std::fs::File;
use std::io::Read;

// Opens a file of run cases. Where it cannot be opened, one line on standard error says so, and there is none.
pub fn open_cases(rt: &HostRuntime, path: &[u8]) -> Option<File> {
    match opened(rt, path) {
        Ok(file) => Some(file),
        Err(why) => {
            fail(rt, path, why);
            None
        }
    }
}

// Runs the cases of a file one after the other, each read as `next_case` does below a header of so many bytes, until there is none left or a step finds its own not there.
// A step is handed the file, where it reads what stands below the flow, the numbers of the call, which are zeros where the header has none, and the flow.
pub fn run_cases<const ROOM: usize, F: Fn(&HostRuntime, &mut File, Numbers, &mut [u8]) -> bool>(
    rt: &HostRuntime,
    path: &[u8],
    header: usize,
    step: F,
)
    requires callable { F.IsAlwaysCallable step }
    requires header_fits { header ≤ 153 }
    requires room_fits { ROOM ≤ 200_000 }
{
    let Some(mut cases) = open_cases(rt, path) else {
        return;
    };
    for _ in 0..MOST_CASES {
        let mut head = [0u8; CALL_HEADER];
        // Kept: no heap: a case is read into a room of fixed length, and a slice of it goes on.
        let mut room = [0u8; ROOM];
        let Some(n) = next_case(rt, &mut cases, &mut head[..header], &mut room) else {
            break;
        };
        if !step(rt, &mut cases, numbers_of(head), &mut room[..n]) {
            break;
        }
    }
}

// How long the name at the start of a header is: up to its first space.
fn name_length(head: &[u8]) -> usize
    ensures { result ≤ length head.now }
{
    head.iter().position(|b| *b == b' ').unwrap_or(head.len())
}

// Prints the name of a run case, which stands at the start of its header.
fn print_name(rt: &HostRuntime, head: &[u8]) {
    let n = name_length(head);
    print_bytes(rt, &head[0..n]);
    print_bytes(rt, b"\n");
}

// A number of a run case; zero where its digits are none.
fn number_of(digits: &[u8]) -> u64
    ensures { result ≡ or_zero (decimal_of digits.now) }
{
    args::decimal(digits).unwrap_or(0)
}

// The numbers in the header of a call: behind a name of 40 bytes, each after a space, in 20 digits.
pub fn numbers_of(head: [u8; 153]) -> Numbers
    ensures { result ≡ numbers_of head }
{
    Numbers {
        first: number_of(&head[41..61]),
        second: number_of(&head[62..82]),
        third: number_of(&head[83..103]),
        fourth: number_of(&head[104..124]),
        fifth: number_of(&head[125..145]),
    }
}

// The i-th number of a text, counted from 0: each stands in 20 digits with a byte behind it. Zero where the text is too short for it.
fn number_in(text: &[u8], i: usize) -> u64
    ensures { result ≡ number_in text.now i }
{
    if i < text.len() / 21 {
        let from = 21 * i;
        return number_of(&text[from..from + 20]);
    }
    0
}

// Fills a list with the first numbers of a text.
pub fn put_numbers(list: &mut [u64], text: &[u8])
    ensures { list.new ≡ numbers_in text.now (length list.old) }
{
    for (i, place) in list.iter_mut().enumerate() {
        *place = number_in(text, i);
    }
}

// Marks every number of a list.
pub fn mark(list: &mut [u64])
    ensures { list.new ≡ marks (length list.old) }
{
    for (i, place) in list.iter_mut().enumerate() {
        *place = FIRST_MARK + i as u64;
    }
}

// How many bytes the flow of a run case has; more than any room of a flow holds where the digits are none.
fn size_of(digits: &[u8]) -> usize
    ensures { result ≡ size_of digits.now }
{
    match text::number(digits) {
        Ok(n) => n as usize,
        Err(_) => 99999,
    }
}

// The length that stands in the last six digits of a header, before its line end; more than any room of a flow holds where the header is too short for one.
fn length_in(head: &[u8]) -> usize
    ensures { result ≡ length_in head.now }
{
    if head.len() < 7 {
        return 99999;
    }
    let from = head.len() - 7;
    size_of(&head[from..from + 6])
}

// Reads until the room is full, the input ends or a read fails, and answers how many bytes it put there.
pub fn read_full<R: Read>(reader: &mut R, room: &mut [u8]) -> usize
    ensures { result ≤ length room.old }
{
    fill(reader, room).0
}

// Reads the n bytes and the line end that come next in a file of run cases; false where they are not there. A room that is too short is
// left as it came.
pub fn read_next<R: Read>(cases: &mut R, room: &mut [u8], n: usize) -> bool
    ensures { (length room.old ≤ n) → (result ≡ false) × (room.new ≡ room.old) }
{
    if room.len() <= n {
        return false;
    }
    read_full(cases, &mut room[0..n + 1]) == n + 1
}

// The next run case of a file: its header is put in `head`, its name is printed, and its flow is put in `room`. Answers how many bytes the flow has; none where
// there is no further case.
pub fn next_case<R: Read>(
    rt: &HostRuntime,
    cases: &mut R,
    head: &mut [u8],
    room: &mut [u8],
) -> Option<usize>
    ensures { IfSome result (λ n. n ≤ length room.old) }
{
    if read_full(cases, head) < head.len() {
        return None;
    }
    print_name(rt, head);
    let n = length_in(head);
    if !read_next(cases, room, n) {
        return None;
    }
    Some(n)
}

// Prints whether the bytes that a run case has left are the expected ones.
pub fn print_comparison(rt: &HostRuntime, left: &[u8], expected: &[u8]) {
    if left == expected {
        print_bytes(rt, b"SAME\n");
    } else {
        print_bytes(rt, b"DIFFERENT\n");
    }
}
