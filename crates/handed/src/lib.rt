// What is handed back, as numbers in room that the caller keeps.
#![tactic(auto)]

ghost use Rattle.std.specs.Prelude.{◌≡◌, true, ◌<◌, ◌≤◌, length, get_or};
ghost use Rattle.portion.specs.Portion.{at_most};
ghost use Rattle.handed.specs.Room.{course_numbers, course_of, progress_numbers, progress_of};

use portion::{Course, Progress};

// How a judgement stands, as numbers.
fn course_numbers(course: Course) -> [u64; 4]
    ensures { result ≡ course_numbers course }
{
    match course {
        Course::Going => [1, 0, 0, 0],
        Course::Accepted => [2, 0, 0, 0],
        Course::Refused(number, at, position) => [3, number, at as u64, position as u64],
        Course::Foreign => [0, 0, 0, 0],
    }
}

// What numbers say of how a judgement stands.
fn course_of(stands: u64, number: u64, at: u64, position: u64) -> Course
    ensures { result ≡ course_of stands number at position }
{
    match stands {
        1 => Course::Going,
        2 => Course::Accepted,
        3 => Course::Refused(number, at as usize, position as usize),
        _ => Course::Foreign,
    }
}

// One of the numbers that are handed back: four of how it stands, 29 of the state, 20 of the name.
fn number_at(x: Progress, i: usize) -> u64
    requires { i < 53 }
    ensures { result ≡ get_or (progress_numbers x) i 0 }
{
    if i < 4 {
        let stands = course_numbers(x.course);
        return stands[i];
    }
    if i < 33 {
        // Kept: speed: an element is read of a copy that the compiler makes once; `x.kept[i - 4]` copies the field anew each time (a call of `f24_judge_portion` for one record: 3,325 instructions, and 4,556 so).
        let kept = x.kept;
        return kept[i - 4];
    }
    let name = x.name;
    u64::from(name[i - 33])
}

// What is handed back, as numbers.
pub fn progress_numbers(x: Progress) -> [u64; 53]
    ensures { result ≡ progress_numbers x }
{
    let mut numbers = [0u64; 53];
    for i in 0..53 {
        numbers[i] = number_at(x, i);
    }
    numbers
}

// The bytes of a name that stands as numbers.
fn name_in(numbers: &[u64]) -> [u8; 20]
    requires { (length numbers.now ≡ 20) × (at_most 255 numbers.now ≡ true) }
    ensures { result ≡ numbers.now }
{
    let mut name = [0u8; 20];
    for i in 0..20 {
        name[i] = numbers[i] as u8;
    }
    name
}

// The numbers of a state.
fn kept_in(numbers: &[u64]) -> [u64; 29]
    requires { length numbers.now ≡ 29 }
    ensures { result ≡ numbers.now }
{
    let mut kept = [0u64; 29];
    kept.copy_from_slice(numbers);
    kept
}

// What numbers say was handed back.
pub fn progress_in(room: &[u64]) -> Progress
    requires { 53 ≤ length room.now }
    ensures { result ≡ progress_of room.now }
{
    if !portion::at_most(&room[33..53], 255) {
        return Progress {
            course: Course::Foreign,
            kept: [0; 29],
            name: [0; 20],
        };
    }
    let course = course_of(room[0], room[1], room[2], room[3]);
    let kept = kept_in(&room[4..33]);
    let name = name_in(&room[33..53]);
    Progress { course, kept, name }
}
