// Whether a table is sound. Each pair is looked at with the rows of its two classes, a whole row at a time.
ghost use Rattle.std.specs.Prelude.{◌≡◌, ◌↔◌, true, ◌<◌};
ghost use Rattle.order.specs.Tables.{Sound};
ghost use Rattle.standing.specs.Soundness.{against, SmallMarks, DiagonalYes, RowsAgree, PairStands, ClassStands};

use marks::{Mark, Marks};

// Whether every mark is 0, 1 or 2. The flag is folded without a branch, so that the compiler makes vector code of it.
fn marks_small(marks: &Marks<'_>) -> bool
    ensures { (result ≡ true) ↔ SmallMarks marks.now.classes marks.now.bytes.now }
{
    !marks
        .all()
        .iter()
        .fold(false, |wrong, mark| wrong | (*mark > Mark::No as u8))
}

// Whether the diagonal is yes. It is called and not inlined: inlined it moves the loops over rows to where some
// processors take their jumps slowly.
#[inline(never)]
fn diagonal_yes(marks: &Marks<'_>) -> bool
    ensures { (result ≡ true) ↔ DiagonalYes marks.now.classes marks.now.bytes.now }
{
    (0..marks.classes).all(|a| marks.under(a, a))
}

// Whether what a and b are marked with at one class speaks against the pair (a, b): against a yes, or against leaving
// it open.
fn speaks_against(settled: bool, of_a: u8, of_b: u8) -> bool
    ensures { result ≡ against settled of_a of_b }
{
    let (yes, no) = (Mark::Yes as u8, Mark::No as u8);
    if settled {
        return ((of_b == yes) & (of_a != yes)) | ((of_a == no) & (of_b != no));
    }
    (of_b == yes) & (of_a == no)
}

// Whether the rows of a and b agree with the pair (a, b), a yes or an open one. This is the innermost of three loops,
// folded without a branch too.
fn rows_agree(marks: &Marks<'_>, settled: bool, a: usize, b: usize) -> bool
    requires { (a < marks.now.classes) × (b < marks.now.classes) }
    ensures { (result ≡ true) ↔ RowsAgree marks.now.classes marks.now.bytes.now settled a b }
{
    let pairs = marks.row(a).iter().zip(marks.row(b));
    !pairs.fold(
        false,
        |wrong, (of_a, of_b)| wrong | speaks_against(settled, *of_a, *of_b),
    )
}

// Whether what soundness asks of the pair (a, b) holds.
fn pair_stands(marks: &Marks<'_>, a: usize, b: usize) -> bool
    requires { (a < marks.now.classes) × (b < marks.now.classes) }
    ensures { (result ≡ true) ↔ PairStands marks.now.classes marks.now.bytes.now a b }
{
    if marks.under(a, b) {
        rows_agree(marks, true, a, b)
    } else if marks.is(a, b, Mark::Open) {
        rows_agree(marks, false, a, b)
    } else {
        true
    }
}

// Whether what soundness asks of a and each class holds.
fn class_stands(marks: &Marks<'_>, a: usize) -> bool
    requires { a < marks.now.classes }
    ensures { (result ≡ true) ↔ ClassStands marks.now.classes marks.now.bytes.now a }
{
    (0..marks.classes).all(|b| pair_stands(marks, a, b))
}

// Whether the table is sound. The diagonal is looked at before all rows, so that a table that is wrong there is refused
// after a look at each class.
pub fn is_sound(marks: &Marks<'_>) -> bool
    ensures { (result ≡ true) ↔ Sound marks.now.classes marks.now.bytes.now }
{
    marks_small(marks) && diagonal_yes(marks) && (0..marks.classes).all(|a| class_stands(marks, a))
}
