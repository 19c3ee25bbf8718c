// Several bytes at once: two, four or eight of them as one number, the first one lowest, and the digits of an amount read eight at a time.
// The bytes are added up as numbers; the compiler makes one load of it.
#![tactic(auto)]

ghost use Rattle.std.specs.Prelude.{◌≡◌, ◌+◌, ◌*◌, ◌<◌, ◌≤◌, length, take, drop, get_or};
ghost use Rattle.text.specs.Answers.{Allowed};
ghost use Rattle.text.specs.Characters.{first_bad};
ghost use Rattle.text.specs.Numbers.{number_of, digits_of};
ghost use Rattle.words.specs.Words.{word, fifteen_of, Spelt, Halves};

// Two bytes of a part.
pub fn pair_at(part: &[u8], at: usize) -> u64
    requires { at + 2 ≤ length part.now }
    ensures { result ≡ get_or part.now at 0 + get_or part.now (at + 1) 0 * 256 }
{
    part[at] as u64 + part[at + 1] as u64 * 0x100
}

// Four bytes of a part.
fn four_at(part: &[u8], at: usize) -> u64
    requires { at + 4 ≤ length part.now }
    ensures { (result ≡ word (take 4 (drop at part.now))) × (result < 4294967296) }
{
    let a = part[at] as u64;
    let b = part[at + 1] as u64;
    let c = part[at + 2] as u64;
    let d = part[at + 3] as u64;
    a + b * 0x100 + c * 0x1_0000 + d * 0x100_0000
}

// Eight bytes of a part.
pub fn word_at(part: &[u8], at: usize) -> u64
    requires { at + 8 ≤ length part.now }
    ensures { result ≡ word (take 8 (drop at part.now)) }
{
    four_at(part, at) + four_at(part, at + 4) * 0x1_0000_0000
}

// The number that eight digits in a word say, or none where one of them is no digit, read with arithmetic on the whole of it: each digit, pairs, fours, all of them.
fn eight_in(w: u64) -> Option<u64>
    requires { Spelt w }
    ensures { (s : Spelt w) → result ≡ fifteen_of (number_of s.chars) }
{
    let y = w ^ 0x3030_3030_3030_3030;
    if (y + 0x7676_7676_7676_7676) & 0x8080_8080_8080_8080 != 0 {
        return None;
    }
    let pairs = (y * 10 + y / 0x100) & 0x00ff_00ff_00ff_00ff;
    let fours = (pairs * 100 + pairs / 0x1_0000) & 0x0000_ffff_0000_ffff;
    Some((fours * 10000 + fours / 0x1_0000_0000) % 0x1_0000_0000)
}

// The amount that fifteen characters say, or none where one of them is no digit, by the words of the first and of the last eight: nearly always the first eight are zeros, and often all.
fn fifteen_in(front: u64, back: u64) -> Option<u64>
    requires { Halves front back }
    ensures { (s : Halves front back) → result ≡ fifteen_of (number_of s.chars) }
{
    if front == 0x3030_3030_3030_3030 {
        if back == 0x3030_3030_3030_3030 {
            return Some(0);
        }
        return eight_in(back);
    }
    let high = eight_in(front)?;
    let low = eight_in(back)?;
    Some(high / 10 * 1_0000_0000 + low)
}

// The amount that fifteen characters of a part say.
pub fn amount_at(part: &[u8], at: usize) -> Option<u64>
    requires { (at + 15 ≤ length part.now) × (first_bad part.now ≡ Allowed) }
    ensures { result ≡ fifteen_of (number_of (take 15 (drop at part.now))) }
{
    fifteen_in(word_at(part, at), word_at(part, at + 7))
}

// The same of a part with any bytes: one with its top bit set is no digit, and leaves no room for the arithmetic.
pub fn any_amount_at(part: &[u8], at: usize) -> Option<u64>
    requires { at + 15 ≤ length part.now }
    ensures { result ≡ fifteen_of (number_of (take 15 (drop at part.now))) }
{
    let front = word_at(part, at);
    let back = word_at(part, at + 7);
    if front & 0x8080_8080_8080_8080 != 0 {
        return None;
    }
    if back & 0x8080_8080_8080_8080 != 0 {
        return None;
    }
    fifteen_in(front, back)
}

// The word of a number below 1000 in eight digits.
pub fn number_word(n: u64) -> u64
    requires { n < 1000 }
    ensures { result ≡ word (digits_of 8 n) }
{
    0x3030_3030_3030_3030
        + n / 100 * 0x100_0000_0000
        + n / 10 % 10 * 0x1_0000_0000_0000
        + n % 10 * 0x100_0000_0000_0000
}
