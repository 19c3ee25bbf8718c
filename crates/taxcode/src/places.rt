// What the two kinds of code share: even and odd places.
ghost use Rattle.std.specs.Prelude.{◌≡◌};
ghost use Rattle.taxcode.specs.Places.{by_place};

// One number in an even place, and another in an odd one.
pub fn by_place(k: usize, even: usize, odd: usize) -> usize
    ensures { result ≡ by_place k even odd }
{
    if k % 2 == 0 { even } else { odd }
}
