// Ladders.
ghost use Rattle.promise.specs.Calls.{Owed, count_of};
ghost use Rattle.promise.specs.Hierarchy.{ladder};
ghost use Rattle.hierarchy.specs.Left.{HasLadder, ladder_left};

use crate::rungs::climb;
use marks::Marks;
use promise::{Refusal, Session};
use steps::Heads;

// The ladder from a to b, where only 8 may still be due.
fn write_ladder(marks: &Marks<'_>, a: usize, b: usize, rungs: &mut [u8]) -> Result<usize, Refusal>
    requires { HasLadder marks.now.classes marks.now.bytes.now a b }
    ensures { Owed (ladder_left marks.now.classes marks.now.bytes.now a b rungs.old)
        (count_of result, rungs.new) }
{
    let heads = Heads::of(marks);
    let start = heads.head(a);
    let count = climb(&heads, b, start, 0, &mut *rungs);
    if rungs.len() < count {
        return Err(Refusal::NoRoom);
    }
    Ok(count)
}

// Writes the ladder from a to b, a byte a rung, and gives the count of rungs. Refuses with 1 to 4, with 5 if a or b is
// no class, with 7 if a pair is open, with 9 if a is not under b, and with 8 if the buffer is too short; then no byte
// is written.
pub fn ladder(
    session: Session,
    table: &[u8],
    a: usize,
    b: usize,
    rungs: &mut [u8],
) -> Result<usize, Refusal>
    ensures { Owed (ladder session table.now a b rungs.old) (count_of result, rungs.new) }
{
    let marks = standing::checked(session, table)?;
    if marks.classes <= a || marks.classes <= b {
        return Err(Refusal::NoSuchClass);
    }
    if marks.count_open() != 0 {
        return Err(Refusal::StillOpen);
    }
    if !marks.under(a, b) {
        return Err(Refusal::NoLadder);
    }
    write_ladder(&marks, a, b, rungs)
}
