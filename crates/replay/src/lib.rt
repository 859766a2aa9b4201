// A whole history of calls: what demand 3 promises of a run, held to the calls themselves.
#![tactic(auto)]

ghost use Rattle.promise.specs.Calls.{no_session, reply_of};
ghost use Rattle.replay.specs.Replay.{Replayed};

use promise::{Clip, Kind, Refusal, Session};

// What a call of a history takes in: a fact, told or given as an answer, or a clip.
#[derive(Clone, Copy)]
pub enum Intake {
    Fact {
        kind: Kind,
        lower: usize,
        upper: usize,
        holds: bool,
    },
    Clipped(Clip),
}

impl Intake {
    ghost use Rattle.promise.specs.Calls.{Owed};
    ghost use Rattle.promise.specs.Runs.{taking};
    ghost use Rattle.replay.specs.Replay.{intake_of};

    // The call is made.
    fn make(self, session: Session, table: &mut [u8]) -> Result<Session, Refusal>
        ensures { Owed (taking (intake_of self) session table.old) (reply_of session result, table.new) }
    {
        match self {
            Intake::Fact {
                kind: Kind::Told,
                lower,
                upper,
                holds,
            } => session::tell(session, table, lower, upper, holds),
            Intake::Fact {
                kind: Kind::Answered,
                lower,
                upper,
                holds,
            } => session::answer(session, table, lower, upper, holds),
            Intake::Clipped(trial) => clips::clip(session, table, trial),
        }
    }
}

// fresh, and then every call of a history, table and session passed on untouched: a refused call gives the session
// back.
pub fn replay(classes: usize, table: &mut [u8], history: &[Intake]) -> Result<Session, Refusal>
    ensures { Replayed classes table.old history.now (reply_of no_session result) table.new }
{
    let mut session = session::fresh(classes, table)?;
    for intake in history {
        session = intake.make(session, table).unwrap_or(session);
    }
    Ok(session)
}
