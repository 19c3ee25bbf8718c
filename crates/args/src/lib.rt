// The words that a program is started with.
#![tactic(auto)]

ghost use Rattle.std.specs.Prelude.{◌≡◌};
ghost use Rattle.args.specs.Decimal.{decimal_of};

// The number that a word of one to twenty digits says, where a u64 holds it.
pub fn decimal(word: &[u8]) -> Option<u64>
    ensures { result ≡ decimal_of word.now }
{
    if word.is_empty() || 20 < word.len() {
        return None;
    }
    let mut n: u64 = 0;
    for &b in word {
        if !b.is_ascii_digit() {
            return None;
        }
        let tens = n.checked_mul(10)?;
        n = tens.checked_add(u64::from(b - b'0'))?;
    }
    Some(n)
}
