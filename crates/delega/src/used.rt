// What the open delega uses: how many lines, and which of the five sections, as one number with one bit per section.
ghost use Rattle.std.specs.Prelude.{◌≡◌, ◌<◌};
ghost use Rattle.delega.specs.Used.{bit_of, none_used, used_with, next_used, size_of, first_of};

use layout::Kind;

// The lines of the open delega so far, and the sections that they are of.
#[derive(Clone, Copy)]
pub struct Used {
    pub lines: u64,
    pub set: u64,
}

// The bit of a section: 1, 2, 4, 8, 16 in the order of the sections.
fn bit_of(s: usize) -> u64
    ensures { result ≡ bit_of s }
{
    if s < 5 {
        return 1 << s;
    }
    0
}

impl Used {
    // No line, and no section.
    pub fn none() -> Self
        ensures { result ≡ none_used }
    {
        Used { lines: 0, set: 0 }
    }

    // One more line, of section s.
    fn with_line(self, s: usize) -> Self
        requires { self.lines < 1000 }
        ensures { result ≡ used_with self s }
    {
        Used {
            lines: self.lines + 1,
            set: self.set | bit_of(s),
        }
    }

    // After a record of kind k: a record 10 opens a delega, and a line counts in it.
    pub fn after(self, k: Kind) -> Self
        requires { self.lines < 1000 }
        ensures { result ≡ next_used self k }
    {
        match k {
            Kind::Taxpayer => Used::none(),
            Kind::Line(s) => self.with_line(s),
            _ => self,
        }
    }

    // How many sections: the ones of the set.
    pub fn size(self) -> u64
        ensures { result ≡ size_of self.set }
    {
        u64::from(self.set.count_ones())
    }

    // The first of them: the zeros behind its bit.
    pub fn first(self) -> usize
        ensures { result ≡ first_of self.set }
    {
        self.set.trailing_zeros() as usize
    }
}
