// A list of delega numbers: whether it names a delega, and whether all its numbers are those of deleghe, each named once.
ghost use Rattle.std.specs.Prelude.{◌≡◌};
ghost use Rattle.text.specs.Among.{among};
ghost use Rattle.close.specs.Closing.{each_once};
ghost use Rattle.close.specs.Inner.{named_once};

// Whether a list names delega d.
pub fn names(numbers: &[u64], d: u64) -> bool
    ensures { result ≡ among d numbers.now }
{
    numbers.contains(&d)
}

// Whether d is the number of one of so many deleghe, and is not named by the others of a list.
fn is_named_once(d: u64, others: &[u64], deleghe: u64) -> bool
    ensures { result ≡ named_once deleghe d others.now }
{
    (1..=deleghe).contains(&d) && !names(others, d)
}

// Whether every number of a list is that of one of so many deleghe, and is named once. A list of more numbers than deleghe is not gone through.
pub fn each_once(numbers: &[u64], deleghe: u64) -> bool
    ensures { result ≡ each_once deleghe numbers.now }
{
    if deleghe < numbers.len() as u64 {
        return false;
    }
    for (i, d) in numbers.iter().enumerate() {
        if !is_named_once(*d, &numbers[i + 1..], deleghe) {
            return false;
        }
    }
    true
}
