// The total of a record M of the F24 EP form: the one text of a number of cents, and the number that a text says.
#![tactic(auto)]

ghost use Rattle.std.specs.Prelude.{◌∷◌, ◌≡◌, ◌+◌, ◌≤◌, ◌<◌, length};
ghost use Rattle.text.specs.Numbers.{digits_of};
ghost use Rattle.printing.specs.Appended.{Appended};
ghost use Rattle.ep_total.specs.Total.{dot, dotted, euro_text, total_text, with_digit, digits_in, total_of};

// How many characters a total has.
const TOTAL: usize = 15;

// The room in which the text of every number fits.
const ROOM: usize = 40;

// A dot and the three digits behind it.
fn put_group(room: &mut [u8], at: usize, n: u64) -> usize
    requires { (at + 4 ≤ length room.old) × (n < 1000) }
    ensures { Appended at (dot ∷ digits_of 3 n) 4 room.old room.new result }
{
    let digits = printing::put_byte(room, at, b'.');
    text::put_number(room, digits, 3, n);
    digits + 3
}

// A number below a million with a dot behind its thousands.
fn put_thousands(room: &mut [u8], at: usize, n: u64) -> usize
    requires { (at + 24 ≤ length room.old) × (n < 1000000) }
    ensures { Appended at (dotted n) 24 room.old room.new result }
{
    if n < 1000 {
        printing::put_decimal(room, at, n)
    } else {
        let end = printing::put_decimal(room, at, n / 1000);
        put_group(room, end, n % 1000)
    }
}

// A number below a thousand millions with its dots.
fn put_dotted(room: &mut [u8], at: usize, n: u64) -> usize
    requires { (at + 28 ≤ length room.old) × (n < 1000000000) }
    ensures { Appended at (dotted n) 28 room.old room.new result }
{
    if n < 1000000 {
        put_thousands(room, at, n)
    } else {
        let end = put_thousands(room, at, n / 1000);
        put_group(room, end, n % 1000)
    }
}

// The euros of a total: with dots, unless the total would have more than fifteen characters with them.
fn put_euros(room: &mut [u8], at: usize, n: u64) -> usize
    requires { at + 28 ≤ length room.old }
    ensures { Appended at (euro_text n) 28 room.old room.new result }
{
    if n < 1000000000 {
        put_dotted(room, at, n)
    } else {
        printing::put_decimal(room, at, n)
    }
}

// The text of a total at the start of a room; the answer is the index after it.
fn put_total(room: &mut [u8], n: u64) -> usize
    requires { 31 ≤ length room.old }
    ensures { Appended 0 (total_text n) 31 room.old room.new result }
{
    let comma = put_euros(room, 0, n / 100);
    let cents = printing::put_byte(room, comma, b',');
    text::put_number(room, cents, 2, n % 100);
    cents + 2
}

// A number with one more digit, where a byte is one.
fn with_digit(n: u64, b: u8) -> u64
    requires { n < 100000000000000 }
    ensures { result ≡ with_digit n b }
{
    if b.is_ascii_digit() {
        n * 10 + u64::from(b - b'0')
    } else {
        n
    }
}

// The number that the digits of a part say, whatever stands between them.
fn digits_in(part: &[u8]) -> u64
    requires { length part.now ≤ 15 }
    ensures { result ≡ digits_in 0 part.now }
{
    let mut n: u64 = 0;
    for &b in part {
        n = with_digit(n, b);
    }
    n
}

// What a text of fifteen characters says: the number whose text it is. Any other text says none.
pub fn read_total(part: &[u8]) -> Option<u64>
    ensures { result ≡ total_of part.now }
{
    if part.len() != TOTAL {
        return None;
    }
    let n = digits_in(part);
    let mut room = [b' '; ROOM];
    let end = put_total(&mut room, n);
    if end <= TOTAL && text::same_bytes(part, &room[..TOTAL]) {
        Some(n)
    } else {
        None
    }
}
