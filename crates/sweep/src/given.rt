// What calls are given.
ghost use Rattle.std.specs.Prelude.{◌+◌, ◌<◌, ◌≤◌};

use crate::draws::Draws;
use promise::Session;

// What stays for a whole round: the class count, and how many bytes of table and spare are lent.
#[derive(Clone, Copy)]
pub struct Sizes {
    pub classes: usize,
    pub lent: usize,
    ghost few: { (0 < classes) × (classes ≤ 128) },
    ghost within: { lent ≤ 16386 },
}

// A byte of the table that is changed for a call: its place, and what it was before.
#[derive(Clone, Copy)]
pub struct Changed {
    pub place: usize,
    pub before: u8,
    ghost within: { place < 16386 },
}

// What one call is given: a session, and so many bytes of the table, of which one may be changed for it.
#[derive(Clone, Copy)]
pub struct Given {
    pub session: Session,
    pub lent: usize,
    pub changed: Option<Changed>,
    ghost within: { lent ≤ 16386 },
}

// A session with no test.
pub fn untested(classes: usize) -> Session {
    Session { classes, tests: 0 }
}

impl Sizes {
    // Few classes, and now and then up to the most.
    pub fn draw(draws: &mut Draws, most: usize) -> Sizes
        requires { (0 < most) × (most ≤ 128) }
    {
        let bound = if draws.below(8) == 0 { most } else { 5 };
        let classes = 1 + draws.below(bound);
        let lent = classes * classes + draws.below(3);
        Sizes { classes, lent }
    }

    // How many marks there are.
    pub fn marks(self) -> usize
        ensures { (0 < result) × (result ≤ 16384) }
    {
        self.classes * self.classes
    }
}
