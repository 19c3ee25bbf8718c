// What every text that a program prints is made of: words, numbers in decimal digits and single bytes, each put into a room that
// the caller lends, behind what is printed there already.
#![tactic(auto)]

ghost use Rattle.std.specs.Prelude.{[], ◌∷◌, ◌≡◌, ◌+◌, ◌≤◌, ◌<◌, length};
ghost use Rattle.printing.specs.Decimal.{width_of, decimal};
ghost use Rattle.printing.specs.Appended.{Appended};

// How many digits a number has.
fn width_of(n: u64) -> usize
    ensures { result ≡ width_of n }
{
    match n.checked_ilog10() {
        Some(k) => k as usize + 1,
        None => 1,
    }
}

// A word at an index; the answer is the index after it.
pub fn put_word(room: &mut [u8], at: usize, word: &[u8]) -> usize
    requires { at + length word.now ≤ length room.old }
    ensures { Appended at word.now (length word.now) room.old room.new result }
{
    text::put_part(room, at, word);
    at + word.len()
}

// A number in decimal digits at an index.
pub fn put_decimal(room: &mut [u8], at: usize, n: u64) -> usize
    requires { at + 20 ≤ length room.old }
    ensures { Appended at (decimal n) 20 room.old room.new result }
{
    let width = width_of(n);
    text::put_number(room, at, width, n);
    at + width
}

// One byte at an index.
pub fn put_byte(room: &mut [u8], at: usize, byte: u8) -> usize
    requires { at < length room.old }
    ensures { Appended at (byte ∷ []) 1 room.old room.new result }
{
    room[at] = byte;
    at + 1
}
