// Lines of the table, read into flags before a pass writes to it.
ghost use Rattle.std.specs.Prelude.{◌≡◌, ◌<◌, ◌≤◌, ℕ, false, slice_index_or};
ghost use Rattle.order.specs.Tables.{mark};
ghost use Rattle.marks.specs.Bytes.{byte_of};
ghost use Rattle.passes.specs.Spread.{FlagsOf};

use marks::{Mark, Marks};
use promise::MOST_CLASSES;

// The classes below n that pass a test. `array::from_fn` over all 128 took two to ten times as long.
fn flags_of<F: Fn(usize) -> bool>(n: usize, test: F) -> [bool; MOST_CLASSES]
    requires few { n ≤ 128 }
    requires callable { (x : ℕ) → x < n → F.pre test x }
    ensures { (x : ℕ) → x < n → F.post test x (slice_index_or result x false) }
{
    let mut flags = [false; MOST_CLASSES];
    for x in 0..n {
        flags[x] = test(x);
    }
    flags
}

// The classes at which the row of a class has this mark.
pub fn row_flags(marks: &Marks<'_>, class: usize, wanted: Mark) -> [bool; MOST_CLASSES]
    requires { class < marks.now.classes }
    ensures { FlagsOf marks.now.classes
        (λ y. mark marks.now.classes marks.now.bytes.now class y ≡ byte_of wanted) result }
{
    flags_of(marks.classes, |y| marks.is(class, y, wanted))
}

// The classes at which the column of a class has this mark.
pub fn column_flags(marks: &Marks<'_>, class: usize, wanted: Mark) -> [bool; MOST_CLASSES]
    requires { class < marks.now.classes }
    ensures { FlagsOf marks.now.classes
        (λ x. mark marks.now.classes marks.now.bytes.now x class ≡ byte_of wanted) result }
{
    flags_of(marks.classes, |x| marks.is(x, class, wanted))
}
