// Drawing numbers.
ghost use Rattle.std.specs.Prelude.{◌<◌, ◌≤◌, length, IfSome};

use crate::given::Sizes;

// Each state of the draws is below this.
const MODULUS: u32 = 2147483647;

// What tell and answer are given.
#[derive(Clone, Copy)]
pub struct Fact {
    pub lower: usize,
    pub upper: usize,
    pub holds: bool,
}

// The state of the draws.
#[derive(Clone, Copy)]
pub struct Draws {
    state: u32,
}

impl Draws {
    // The state that a seed says.
    pub fn start(seed: u32) -> Draws {
        Draws {
            state: seed % (MODULUS - 1) + 1,
        }
    }

    // One draw.
    pub fn below(&mut self, bound: usize) -> usize
        requires { 0 < bound }
        ensures { result < bound }
    {
        self.state = (u64::from(self.state) * 48271 % u64::from(MODULUS)) as u32;
        self.state as usize % bound
    }

    // Now and then a draw, and otherwise none.
    pub fn few(&mut self, bound: usize) -> Option<usize>
        requires { 0 < bound }
        ensures { IfSome result (λ drawn. drawn < bound) }
    {
        (self.below(4) == 0).then(|| self.below(bound))
    }

    // A class number, now and then one that there is not.
    fn class(&mut self, sizes: Sizes) -> usize {
        let bound = if self.below(8) == 0 {
            sizes.classes + 1
        } else {
            sizes.classes
        };
        self.below(bound)
    }

    // Two class numbers.
    pub fn pair(&mut self, sizes: Sizes) -> (usize, usize) {
        (self.class(sizes), self.class(sizes))
    }

    // Yes or no.
    pub fn verdict(&mut self) -> bool {
        self.below(2) == 1
    }

    // A fact on a pair, with a verdict that is drawn.
    pub fn verdict_on(&mut self, lower: usize, upper: usize) -> Fact {
        Fact {
            lower,
            upper,
            holds: self.verdict(),
        }
    }

    // A fact on a pair that is drawn.
    pub fn fact(&mut self, sizes: Sizes) -> Fact {
        let (lower, upper) = self.pair(sizes);
        self.verdict_on(lower, upper)
    }

    // How many bytes of a book are lent. Now and then one of them changes first.
    pub fn part(&mut self, book: &mut [u8]) -> usize
        ensures { result ≤ length book.new }
    {
        let length = book.len();
        match self.below(4) {
            0 if length > 0 => {
                let place = self.below(length);
                book[place] = self.below(6) as u8;
                length
            }
            1 => self.below(length + 1),
            _ => length,
        }
    }
}
