// Lent bytes as the marks of so many classes.
ghost use Rattle.std.specs.Prelude.{◌≡◌, ◌↔◌, true, ◌<◌, ◌≤◌, Ok};
ghost use Rattle.order.specs.Tables.{mark, opens};
ghost use Rattle.marks.specs.Shape.{Shape};

use crate::Mark;
use crate::fresh::index;
use promise::Asked;

// At most 128 classes, and bytes with room for their marks.
#[derive(Clone, Copy)]
pub struct Marks<'a> {
    pub classes: usize,
    pub bytes: &'a [u8],
    pub ghost shape: { Shape classes bytes.now },
}

impl<'a> Marks<'a> {
    ghost use Rattle.promise.specs.Next.{Names, question_of};
    ghost use Rattle.marks.specs.Shape.{RowOf, AllOf};
    ghost use Rattle.marks.specs.Bytes.{byte_of};

    // The byte that marks (a, b).
    #[tactic(auto, unfolding(order::specs::Tables::mark))]
    pub fn at(&self, a: usize, b: usize) -> u8
        requires { (a < self.now.classes) × (b < self.now.classes) }
        ensures { result ≡ mark self.now.classes self.now.bytes.now a b }
    {
        self.bytes[index(self.classes, a, b)]
    }

    // The marks of the row of a class.
    #[tactic(auto, unfolding(order::specs::Tables::mark))]
    pub fn row(&self, a: usize) -> &'a [u8]
        requires { a < self.now.classes }
        ensures { RowOf self.now.classes self.now.bytes.now a result.now }
    {
        let start = a * self.classes;
        &self.bytes[start..start + self.classes]
    }

    // All marks, row after row.
    pub fn all(&self) -> &'a [u8]
        ensures { AllOf self.now.classes self.now.bytes.now result.now }
    {
        &self.bytes[..self.classes * self.classes]
    }

    // Whether (a, b) has this mark.
    pub fn is(&self, a: usize, b: usize, wanted: Mark) -> bool
        requires { (a < self.now.classes) × (b < self.now.classes) }
        ensures { (result ≡ true) ↔ (mark self.now.classes self.now.bytes.now a b ≡ byte_of wanted) }
    {
        self.at(a, b) == wanted as u8
    }

    // Whether a is marked as under b.
    pub fn under(&self, a: usize, b: usize) -> bool
        requires { (a < self.now.classes) × (b < self.now.classes) }
        ensures { (result ≡ true) ↔ (mark self.now.classes self.now.bytes.now a b ≡ 1) }
    {
        self.is(a, b, Mark::Yes)
    }

    // How (a, b) is marked.
    pub fn mark(&self, a: usize, b: usize) -> Mark
        requires { (a < self.now.classes) × (b < self.now.classes)
            × (mark self.now.classes self.now.bytes.now a b ≤ 2) }
        ensures { mark self.now.classes self.now.bytes.now a b ≡ byte_of result }
    {
        Mark::try_from(self.at(a, b)).unwrap()
    }

    // How many pairs are open. They are added up without a branch, so that the compiler makes vector code of it.
    pub fn count_open(&self) -> usize
        ensures { result ≡ opens self.now.classes self.now.bytes.now }
    {
        self.all()
            .iter()
            .map(|mark| usize::from(*mark == Mark::Open as u8))
            .sum()
    }

    // The first open pair, rows in rising order and then columns, or that none is open. The form is fixed: nested
    // loops, left by a label.
    pub fn first_open(&self) -> Option<Asked>
        ensures { Names self.now.classes self.now.bytes.now (question_of (Ok result)) }
    {
        let mut found = None;
        'rows: for a in 0..self.classes {
            for b in 0..self.classes {
                if self.at(a, b) == Mark::Open as u8 {
                    found = Some(Asked { lower: a, upper: b });
                    break 'rows;
                }
            }
        }
        found
    }
}
