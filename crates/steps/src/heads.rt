// The heads of the classes.
ghost use Rattle.std.specs.Prelude.{◌≡◌, ◌↔◌, true, ◌<◌};
ghost use Rattle.order.specs.Tables.{Sound};
ghost use Rattle.promise.specs.Hierarchy.{Equal, HeadOf, Head, HeadsOf};
ghost use Rattle.steps.specs.HeadsFound.{HeadsFound};
ghost use Rattle.steps.specs.Between.{HeadAbove};

use marks::Marks;
use promise::MOST_CLASSES;

// The marks of a sound table, and the head of each of its classes.
#[derive(Clone, Copy)]
pub struct Heads<'a> {
    pub marks: Marks<'a>,
    heads: [u8; MOST_CLASSES],
    pub ghost found: { HeadsFound marks.classes marks.bytes.now heads },
}

// Whether a and b are under each other.
fn equal(marks: &Marks<'_>, a: usize, b: usize) -> bool
    requires { (a < marks.now.classes) × (b < marks.now.classes) }
    ensures { (result ≡ true) ↔ Equal marks.now.classes marks.now.bytes.now a b }
{
    marks.under(a, b) && marks.under(b, a)
}

// The lowest class equal to a.
fn head_of(marks: &Marks<'_>, a: usize) -> usize
    requires { (Sound marks.now.classes marks.now.bytes.now) × (a < marks.now.classes) }
    ensures { HeadOf marks.now.classes marks.now.bytes.now a result }
{
    (0..a).find(|c| equal(marks, a, *c)).unwrap_or(a)
}

impl<'a> Heads<'a> {
    // The head of each class is worked out.
    pub fn of(marks: &Marks<'a>) -> Self
        requires { Sound marks.now.classes marks.now.bytes.now }
        ensures { result.marks ≡ marks.now }
    {
        let mut heads = [0; MOST_CLASSES];
        // `array::from_fn` would ask for a head of numbers that are no classes.
        for a in 0..marks.classes {
            heads[a] = head_of(marks, a) as u8;
        }
        Heads {
            marks: *marks,
            heads,
        }
    }

    // The head of a class.
    pub fn head(&self, a: usize) -> usize
        requires { a < self.now.marks.classes }
        ensures { HeadOf self.now.marks.classes self.now.marks.bytes.now a result }
    {
        self.heads[a] as usize
    }

    // The heads, a byte each in class order.
    pub fn bytes(&self) -> &[u8]
        ensures { HeadsOf self.now.marks.classes self.now.marks.bytes.now result.now }
    {
        &self.heads[..self.marks.classes]
    }

    // Whether a is its own head.
    pub(crate) fn is_head(&self, a: usize) -> bool
        requires { a < self.now.marks.classes }
        ensures { (result ≡ true) ↔ Head self.now.marks.classes self.now.marks.bytes.now a }
    {
        self.head(a) == a
    }

    // Whether c is a head above a, and not a itself. Few classes are above one, so that is asked first.
    pub(crate) fn is_above(&self, a: usize, c: usize) -> bool
        requires { (a < self.now.marks.classes) × (c < self.now.marks.classes) }
        ensures { (result ≡ true) ↔ HeadAbove self.now.marks.classes self.now.marks.bytes.now a c }
    {
        self.marks.under(a, c) && c != a && self.is_head(c)
    }
}
