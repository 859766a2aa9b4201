// What tell and answer share: a fact is judged and taken in.
ghost use Rattle.std.specs.Prelude.{◌≡◌, ◌<◌, []};
ghost use Rattle.order.specs.Facts.{fact_on};
ghost use Rattle.promise.specs.Refusals.{First, standing};
ghost use Rattle.promise.specs.Calls.{Owed, reply_of, tested};
ghost use Rattle.promise.specs.Tell.{adds, tell};
ghost use Rattle.passes.specs.Taken.{OpenPair, FactTaken};

use marks::{Mark, Marks};
use promise::{Kind, Refusal, Session};

// A fact on an open pair is taken in.
fn take_in(n: usize, table: &mut [u8], lower: usize, upper: usize, holds: bool)
    requires { OpenPair n table.old lower upper }
    ensures { FactTaken n (fact_on lower upper holds) table.old table.new }
{
    if holds {
        passes::take_yes(n, table, lower, upper);
    } else {
        passes::take_no(n, table, lower, upper);
    }
}

// The session after a fact on an open pair: an answer is one test more.
fn tested(session: Session, kind: Kind) -> Session
    requires { session.tests < 16384 }
    ensures { result ≡ tested (adds kind 0 0) session }
{
    match kind {
        Kind::Told => session,
        Kind::Answered => Session {
            tests: session.tests + 1,
            ..session
        },
    }
}

// A fact is taken in by a session and a table for which none of the refusals 1 to 4 is due. That stands in the clause
// and in no value: the table is written to, and `passes` says what is lost of a struct that could be.
pub fn take_fact(
    session: Session,
    table: &mut [u8],
    lower: usize,
    upper: usize,
    holds: bool,
    kind: Kind,
) -> Result<Session, Refusal>
    requires { First (standing session table.old []) 0 }
    ensures { Owed (tell kind session table.old (fact_on lower upper holds))
        (reply_of session result, table.new) }
{
    let classes = session.classes;
    if classes <= lower || classes <= upper {
        return Err(Refusal::NoSuchClass);
    }
    let marks = Marks {
        classes,
        bytes: table,
    };
    match (marks.mark(lower, upper), holds) {
        (Mark::Open, _) => {
            take_in(classes, table, lower, upper, holds);
            Ok(tested(session, kind))
        }
        (Mark::Yes, true) | (Mark::No, false) => Ok(session),
        (Mark::Yes, false) | (Mark::No, true) => Err(Refusal::Contradicted),
    }
}

// A fact is taken in by any session and table.
pub fn take(
    session: Session,
    table: &mut [u8],
    lower: usize,
    upper: usize,
    holds: bool,
    kind: Kind,
) -> Result<Session, Refusal>
    ensures { Owed (tell kind session table.old (fact_on lower upper holds))
        (reply_of session result, table.new) }
{
    standing::checked(session, table)?;
    take_fact(session, table, lower, upper, holds, kind)
}
