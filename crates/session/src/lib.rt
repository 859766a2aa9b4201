// The calls fresh, tell, answer, next and open_pairs. None has a requires: any class count, tally, table and class
// numbers get an answer or a refusal.
#![tactic(auto)]

mod facts;

ghost use Rattle.order.specs.Facts.{fact_on};
ghost use Rattle.promise.specs.Calls.{Owed, count_of, no_session, open_pairs, reply_of};
ghost use Rattle.promise.specs.Tell.{fresh, tell};
ghost use Rattle.promise.specs.Next.{next, question_of};
ghost use Rattle.promise.specs.declared.Kind.TheVariants.{Answered, Told};

pub use facts::take_fact;
use promise::{Asked, Kind, MOST_CLASSES, Refusal, Session};

// A new table: yes on the diagonal, open elsewhere.
pub fn fresh(classes: usize, table: &mut [u8]) -> Result<Session, Refusal>
    ensures { Owed (fresh classes table.old) (reply_of no_session result, table.new) }
{
    if !(1..=MOST_CLASSES).contains(&classes) {
        return Err(Refusal::BadCount);
    }
    if table.len() < classes * classes {
        return Err(Refusal::ShortTable);
    }
    marks::fresh_marks(classes, table);
    Ok(Session { classes, tests: 0 })
}

// A fact is told: it never counts as a test. README and the header have this call and the next by their names.
pub fn tell(
    session: Session,
    table: &mut [u8],
    lower: usize,
    upper: usize,
    holds: bool,
) -> Result<Session, Refusal>
    ensures { Owed (tell Told session table.old (fact_on lower upper holds))
        (reply_of session result, table.new) }
{
    facts::take(session, table, lower, upper, holds, Kind::Told)
}

// A fact is given as an answer: it counts as a test where its pair was open.
pub fn answer(
    session: Session,
    table: &mut [u8],
    lower: usize,
    upper: usize,
    holds: bool,
) -> Result<Session, Refusal>
    ensures { Owed (tell Answered session table.old (fact_on lower upper holds))
        (reply_of session result, table.new) }
{
    facts::take(session, table, lower, upper, holds, Kind::Answered)
}

// The next question: the first open pair, rows in rising order and then columns, or that none is open.
pub fn next(session: Session, table: &[u8]) -> Result<Option<Asked>, Refusal>
    ensures { Owed (next session table.now) (question_of result) }
{
    Ok(standing::checked(session, table)?.first_open())
}

// How many pairs are open.
pub fn open_pairs(session: Session, table: &[u8]) -> Result<usize, Refusal>
    ensures { Owed (open_pairs session table.now) (count_of result) }
{
    Ok(standing::checked(session, table)?.count_open())
}
