// The call clip: the noes of a set of classes that played a trial clip are taken in as one. It has no requires: any
// class count, tally, table and flags get an answer or a refusal.
#![tactic(auto)]

mod bytes;
mod members;

ghost use Rattle.std.specs.Prelude.{[]};
ghost use Rattle.promise.specs.Refusals.{First, standing};
ghost use Rattle.promise.specs.Calls.{Owed, reply_of};
ghost use Rattle.promise.specs.Clips.{clip, clip_bytes};

use bytes::flags_of;
use marks::{Mark, Marks};
use members::{non_members, none_beyond, none_contradicts};
use promise::{Clip, MOST_CLASSES, Refusal, Session};

// A clip is taken in by a session and a table for which none of the refusals 1 to 4 is due, which stands in the clause
// as for a fact. Whether one of its noes contradicts is known before the first byte changes. Where none does, members
// are under members only: the noes settle the pairs of a member and a non-member and no others, and one pass marks
// them.
fn take_clip(
    session: Session,
    table: &mut [u8],
    played: &[bool; MOST_CLASSES],
) -> Result<Session, Refusal>
    requires { First (standing session table.old []) 0 }
    ensures { Owed (clip session table.old played.now) (reply_of session result, table.new) }
{
    let classes = session.classes;
    if !none_beyond(classes, played) {
        return Err(Refusal::NoSuchClass);
    }
    let marks = Marks {
        classes,
        bytes: table,
    };
    if !none_contradicts(&marks, played) {
        return Err(Refusal::Contradicted);
    }
    let others = non_members(classes, played);
    passes::spread(classes, table, played, &others, Mark::No as u8);
    Ok(session)
}

// A clip is handed over: no class that played it is under one that did not. It never counts as a test.
pub fn clip(session: Session, table: &mut [u8], trial: Clip) -> Result<Session, Refusal>
    ensures { Owed (clip session table.old trial.played) (reply_of session result, table.new) }
{
    standing::checked(session, table)?;
    take_clip(session, table, &trial.played)
}

// The same with a byte for each flag, from class 0 on: set where it is not 0. Every class must have one, and at most
// 128 may be there.
pub fn clip_bytes(session: Session, table: &mut [u8], played: &[u8]) -> Result<Session, Refusal>
    ensures { Owed (clip_bytes session table.old played.now) (reply_of session result, table.new) }
{
    standing::checked(session, table)?;
    if !(session.classes..=MOST_CLASSES).contains(&played.len()) {
        return Err(Refusal::NoSuchClass);
    }
    take_clip(session, table, &flags_of(played))
}
