// Groups and direct steps.
ghost use Rattle.order.specs.Tables.{Sound};
ghost use Rattle.promise.specs.Calls.{Owed, count_of};
ghost use Rattle.promise.specs.Hierarchy.{hierarchy};
ghost use Rattle.hierarchy.specs.Left.{hierarchy_left};

use marks::Marks;
use promise::{Refusal, Session};
use steps::Heads;

// Room for all direct steps of 128 classes, two bytes each.
const MOST_STEPS: usize = 8192;

// The heads and the direct steps, where only 8 may still be due. Both are worked out before any byte is written.
fn write_hierarchy(marks: &Marks<'_>, heads: &mut [u8], steps: &mut [u8]) -> Result<usize, Refusal>
    requires { Sound marks.now.classes marks.now.bytes.now }
    ensures { Owed (hierarchy_left marks.now.classes marks.now.bytes.now heads.old steps.old)
        (count_of result, (heads.new, steps.new)) }
{
    if heads.len() < marks.classes {
        return Err(Refusal::NoRoom);
    }
    let found = Heads::of(marks);
    // No heap: a buffer that holds the most, of which the front is listed.
    let mut listed = [0; MOST_STEPS];
    let count = found.list_steps(&mut listed);
    let size = 2 * count;
    if steps.len() < size {
        return Err(Refusal::NoRoom);
    }
    heads[..marks.classes].copy_from_slice(found.bytes());
    steps[..size].copy_from_slice(&listed[..size]);
    Ok(count)
}

// Writes the head of each class, a byte each, and the direct steps, two bytes each, and gives the count of steps.
// Refuses with 1 to 4, with 7 if a pair is open, and with 8 if either buffer is too short; then no byte is written.
pub fn hierarchy(
    session: Session,
    table: &[u8],
    heads: &mut [u8],
    steps: &mut [u8],
) -> Result<usize, Refusal>
    ensures { Owed (hierarchy session table.now heads.old steps.old)
        (count_of result, (heads.new, steps.new)) }
{
    let marks = standing::checked(session, table)?;
    if marks.count_open() != 0 {
        return Err(Refusal::StillOpen);
    }
    write_hierarchy(&marks, heads, steps)
}
