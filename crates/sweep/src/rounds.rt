// A round: fresh, calls with trouble, every pair settled, and calls with trouble again.
ghost use Rattle.std.specs.Prelude.{◌<◌, ◌≤◌};

use crate::draws::Fact;
use crate::given::{Sizes, untested};
use crate::sweep::Sweep;
use std::io;

// next asks so often at most in a round. Up to 12 classes it stops by itself, since each answer settles a pair.
const MOST_QUESTIONS: usize = 400;

// The most classes of a round: 12 where none are asked for, and never above 128.
fn most_classes(asked: u32) -> usize
    ensures { (0 < result) × (result ≤ 128) }
{
    match asked {
        0 => 12,
        _ => asked.min(128) as usize,
    }
}

impl Sweep {
    // So many rounds.
    pub fn rounds(&mut self, count: u32, most: u32) -> io::Result<()> {
        let most = most_classes(most);
        for _ in 0..count {
            self.round(most)?;
        }
        Ok(())
    }

    // A round of up to so many classes.
    fn round(&mut self, most: usize) -> io::Result<()>
        requires { (0 < most) × (most ≤ 128) }
    {
        let sizes = Sizes::draw(&mut self.draws, most);
        self.begin(sizes)?;
        // Many classes are now and then told to be in a row, so that few questions settle all.
        if sizes.classes > 12 && self.draws.below(2) == 1 {
            self.tell_row(sizes)?;
        }
        self.some_calls(sizes, (sizes.marks() + 1).min(145))?;
        self.settle_all(sizes)?;
        self.some_calls(sizes, 5)
    }

    // fresh with trouble, and if it is refused with none.
    fn begin(&mut self, sizes: Sizes) -> io::Result<()> {
        self.session = untested(sizes.classes);
        let troubled = self.troubled(sizes);
        if !self.fresh(troubled)? {
            self.fresh(self.untroubled(sizes))?;
        }
        Ok(())
    }

    // Each class is told to be under the next.
    fn tell_row(&mut self, sizes: Sizes) -> io::Result<()> {
        for upper in 1..sizes.classes {
            let fact = Fact {
                lower: upper - 1,
                upper,
                holds: true,
            };
            self.tell(self.untroubled(sizes), fact)?;
        }
        Ok(())
    }

    // Calls with trouble: 4, and as many more as a draw says.
    fn some_calls(&mut self, sizes: Sizes, bound: usize) -> io::Result<()>
        requires { (0 < bound) × (bound ≤ 145) }
    {
        for _ in 0..4 + self.draws.below(bound) {
            self.call(sizes)?;
        }
        Ok(())
    }

    // A call with trouble. docs/SWEEP.md has the numbers.
    fn call(&mut self, sizes: Sizes) -> io::Result<()> {
        let given = self.troubled(sizes);
        match self.draws.below(19) {
            0..=4 => {
                let fact = self.draws.fact(sizes);
                self.tell(given, fact)
            }
            5..=8 => {
                let fact = self.draws.fact(sizes);
                self.answer(given, fact)
            }
            9 | 10 => self.next(given, sizes).map(drop),
            11 => self.hierarchy(given, sizes),
            12 | 13 => self.ladder(given, sizes),
            14 => self.write(given, sizes),
            15 => self.read(given, sizes),
            16 | 17 => self.clip(given, sizes),
            _ => self.open_pairs(given),
        }
    }

    // next without trouble until it does not ask, or has asked often enough.
    fn settle_all(&mut self, sizes: Sizes) -> io::Result<()> {
        for _ in 0..MOST_QUESTIONS {
            if !self.next(self.untroubled(sizes), sizes)? {
                break;
            }
        }
        Ok(())
    }
}
