// The direct steps from one head, to the classes above it with no third head between.
ghost use Rattle.std.specs.Prelude.{◌≡◌, ◌↔◌, true, ◌<◌};
ghost use Rattle.promise.specs.Hierarchy.{Head, Direct};
ghost use Rattle.steps.specs.Between.{RowAdded, ThirdAdded, ThirdsOf};

use crate::heads::Heads;
use marks::{Mark, Marks};
use promise::MOST_CLASSES;

// A head, and for each class whether a third head stands between them.
#[derive(Clone, Copy)]
pub struct StepsFrom<'h, 'a> {
    pub heads: &'h Heads<'a>,
    pub from: usize,
    thirds: [bool; MOST_CLASSES],
    pub ghost head: { Head heads.now.marks.classes heads.now.marks.bytes.now from },
    pub ghost between: { ThirdsOf heads.now.marks.classes heads.now.marks.bytes.now from thirds },
}

// The flag of each class that c is under goes up. There is no branch in the loop, so that the compiler makes vector
// code of it.
fn add_row(marks: &Marks<'_>, c: usize, thirds: &mut [bool; MOST_CLASSES])
    requires { c < marks.now.classes }
    ensures { RowAdded marks.now.classes marks.now.bytes.now c thirds.old thirds.new }
{
    for (b, mark) in marks.row(c).iter().enumerate() {
        thirds[b] = thirds[b] | (*mark == Mark::Yes as u8);
    }
}

// The same, but the flag of c itself stays: c is no third head below itself.
fn add_third(marks: &Marks<'_>, c: usize, thirds: &mut [bool; MOST_CLASSES])
    requires { c < marks.now.classes }
    ensures { ThirdAdded marks.now.classes marks.now.bytes.now c thirds.old thirds.new }
{
    let own = thirds[c];
    add_row(marks, c, &mut *thirds);
    thirds[c] = own;
}

// The flag of b goes up exactly where a third head stands between a and b. A head whose own flag is up is passed over:
// another third head is under it, and so under all that it is under. The loop writes the flags that it looks at.
pub fn find_thirds(heads: &Heads<'_>, a: usize) -> [bool; MOST_CLASSES]
    requires { a < heads.now.marks.classes }
    ensures { ThirdsOf heads.now.marks.classes heads.now.marks.bytes.now a result }
{
    let mut thirds = [false; MOST_CLASSES];
    for c in 0..heads.marks.classes {
        if heads.is_above(a, c) && !thirds[c] {
            add_third(&heads.marks, c, &mut thirds);
        }
    }
    thirds
}

impl<'a> Heads<'a> {
    // The direct steps from a head, by the third heads above it.
    pub fn steps_from(&self, from: usize) -> StepsFrom<'_, 'a>
        requires { Head self.now.marks.classes self.now.marks.bytes.now from }
        ensures heads { result.heads.now ≡ self.now }
        ensures from { result.from ≡ from }
    {
        StepsFrom {
            heads: self,
            from,
            thirds: find_thirds(self, from),
        }
    }
}

impl StepsFrom<'_, '_> {
    // Whether there is a direct step to b.
    pub fn leads_to(&self, b: usize) -> bool
        requires { b < self.now.heads.now.marks.classes }
        ensures { (result ≡ true)
            ↔ Direct self.now.heads.now.marks.classes self.now.heads.now.marks.bytes.now self.now.from b }
    {
        !self.thirds[b] && self.heads.is_above(self.from, b)
    }
}
