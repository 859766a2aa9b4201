// The refusals with which every call but fresh and reading starts, the soundness of the table among them.
#![tactic(auto)]

mod sound;

ghost use Rattle.std.specs.Prelude.{◌≡◌, [], IfOk};
ghost use Rattle.promise.specs.Refusals.{First, number_by, standing};
ghost use Rattle.standing.specs.Checked.{MarksOf};

use marks::Marks;
use promise::{MOST_CLASSES, Refusal, Session};
use sound::is_sound;

// The marks of a table for which none of the refusals 1 to 4 is due, or the first that is.
pub fn checked(session: Session, table: &[u8]) -> Result<Marks<'_>, Refusal>
    ensures first { First (standing session table.now []) (number_by result) }
    ensures marks { IfOk result (λ marks. MarksOf session table.now marks) }
{
    let n = session.classes;
    if n == 0 || MOST_CLASSES < n {
        return Err(Refusal::BadCount);
    }
    let pairs = n * n;
    if table.len() < pairs {
        return Err(Refusal::ShortTable);
    }
    let marks = Marks {
        classes: n,
        bytes: table,
    };
    if !is_sound(&marks) {
        return Err(Refusal::NotSound);
    }
    let most = pairs - n;
    if most < session.tests || most - session.tests < marks.count_open() {
        return Err(Refusal::Overcounted);
    }
    Ok(marks)
}
