// The text of a CBI F24 flow: which bytes are characters, what the digits of a field say, and how a part or a number is put into a
// record. A record has 120 characters, and an amount has fifteen digits.
#![tactic(auto)]

ghost use Rattle.std.specs.Prelude.{◌≡◌, ◌+◌, ◌*◌, ◌^◌, ◌≤◌, min, max, ltb, length, take};
ghost use Rattle.text.specs.Characters.{first_bad, all_allowed};
ghost use Rattle.text.specs.Numbers.{read_number, digits_of};
ghost use Rattle.text.specs.Placing.{put_at, part_fits, number_fits, part_answer, part_bytes, number_answer, number_bytes};
ghost use Rattle.text.specs.Same.{same_bytes};

// Why a field says no number: a byte that is no digit, by its offset, or more than fifteen bytes.
#[derive(Clone, Copy, PartialEq, Eq)]
pub enum DigitsError {
    NonDigit(usize),
    TooLong,
}

// The least and the greatest byte say whether all are allowed. The loop has no early exit and no test, so that the compiler takes many bytes at once.
fn all_allowed(part: &[u8]) -> bool
    ensures { result ≡ all_allowed part.now }
{
    let mut least: u8 = 126;
    let mut most: u8 = 32;
    for &b in part {
        least = b.min(least);
        most = b.max(most);
    }
    32 <= least && most <= 126
}

// The same of four quarters side by side, so that a turn takes four times as many bytes.
fn quarters_allowed(part: &[u8], quarter: usize) -> bool
    requires { quarter * 4 ≤ length part.now }
    ensures { result ≡ all_allowed (take (quarter * 4) part.now) }
{
    let a = &part[..quarter];
    let b = &part[quarter..quarter * 2];
    let c = &part[quarter * 2..quarter * 3];
    let d = &part[quarter * 3..quarter * 4];
    let mut least: u8 = 126;
    let mut most: u8 = 32;
    for i in 0..quarter {
        least = d[i].min(c[i].min(b[i].min(a[i].min(least))));
        most = d[i].max(c[i].max(b[i].max(a[i].max(most))));
    }
    32 <= least && most <= 126
}

// The same as `all_allowed`, for a long part: four quarters of whole sixteens, and what is left behind them.
pub fn long_allowed(part: &[u8]) -> bool
    ensures { result ≡ all_allowed part.now }
{
    let quarter = part.len() / 64 * 16;
    quarters_allowed(part, quarter) && all_allowed(&part[quarter * 4..])
}

// A part that is not allowed is searched, so that the offset of its first bad byte can be told.
fn search_bad(part: &[u8]) -> Option<usize>
    ensures { result ≡ first_bad part.now }
{
    for (i, &b) in part.iter().enumerate() {
        if !matches!(b, 32..=126) {
            return Some(i);
        }
    }
    None
}

// Nearly every part of a flow is allowed, so that the search for it is seldom needed.
pub fn first_bad(part: &[u8]) -> Option<usize>
    ensures { result ≡ first_bad part.now }
{
    if all_allowed(part) {
        None
    } else {
        search_bad(part)
    }
}

// The number that a field of at most fifteen digits says. A longer part is refused, so that the sum below never wraps.
pub fn number(part: &[u8]) -> Result<u64, DigitsError>
    ensures { result ≡ read_number part.now }
{
    if 15 < part.len() {
        return Err(DigitsError::TooLong);
    }
    let mut n: u64 = 0;
    for (i, &b) in part.iter().enumerate() {
        if !b.is_ascii_digit() {
            return Err(DigitsError::NonDigit(i));
        }
        // Widened before the difference, which saves an instruction a byte.
        n = n * 10 + (u64::from(b) - 48);
    }
    Ok(n)
}

// The tests go by a difference, since a sum of any place and any width could wrap.
fn part_fits(at: usize, width: usize, len: usize) -> bool
    ensures { result ≡ part_fits at width len }
{
    at <= len && width <= len - at
}

// A number has at most `width` digits where nothing is left of it after that many divisions: no power of ten has to be stored.
fn spelled(n: u64, width: usize) -> bool
    ensures { result ≡ ltb n (10 ^ width) }
{
    let mut left = n;
    for _ in 0..width {
        left /= 10;
    }
    left == 0
}

// The room is tested first, so that the width is never larger than the room that is there.
fn number_fits(at: usize, width: usize, n: u64, len: usize) -> bool
    ensures { result ≡ number_fits at width n len }
{
    part_fits(at, width, len) && spelled(n, width)
}

// The digits go from the right, as division gives them. Only `put_number` calls this, after its test.
fn write_digits(room: &mut [u8], at: usize, width: usize, n: u64)
    requires { at + width ≤ length room.old }
    ensures { room.new ≡ put_at at (digits_of width n) room.old }
{
    let mut left = n;
    for i in (0..width).rev() {
        room[at + i] = b'0' + (left % 10) as u8;
        left /= 10;
    }
}

// A number in `width` digits at `at`; whether it is written. Nothing is written unless all of it fits, so that a record is never left half written.
pub fn put_number(room: &mut [u8], at: usize, width: usize, n: u64) -> bool
    ensures { (result ≡ number_answer at width n room.old) × (room.new ≡ number_bytes at width n room.old) }
{
    if number_fits(at, width, n, room.len()) {
        write_digits(room, at, width, n);
        true
    } else {
        false
    }
}

// The bytes of a part at `at`; whether they are written. Nothing is written unless all of it fits, so that a record is never left half written.
pub fn put_part(room: &mut [u8], at: usize, part: &[u8]) -> bool
    ensures { (result ≡ part_answer at part.now room.old) × (room.new ≡ part_bytes at part.now room.old) }
{
    if part_fits(at, part.len(), room.len()) {
        room[at..at + part.len()].copy_from_slice(part);
        true
    } else {
        false
    }
}

// Whether two parts hold the same bytes.
pub fn same_bytes(a: &[u8], b: &[u8]) -> bool
    ensures { result ≡ same_bytes a.now b.now }
{
    a == b
}
