// A field of a book: its head, and the facts that it says.
ghost use Rattle.std.specs.Prelude.{◌≡◌, [], ◌∷◌, ◌+◌, ◌%◌, ◌^◌, ◌≤◌, ◌<◌, length, get_or, drop};
ghost use Rattle.promise.specs.Refusals.{First, standing};
ghost use Rattle.promise.specs.Book.{reply_of_read};
ghost use Rattle.reading.specs.Parts.{width_of, fact_at, placed_at, PartFollowed};

use crate::tags::{Contents, Facts};
use promise::{Refusal, RefusedBook, Session, Stage, Tag};
use session::take_fact;

// The session where no class count was accepted.
pub const NO_SESSION: Session = Session {
    classes: 0,
    tests: 0,
};

// The place of a field in a book, and the bytes of the book from there on.
#[derive(Clone, Copy)]
pub struct Field<'b> {
    pub place: usize,
    pub bytes: &'b [u8],
    pub ghost some: { 0 < length bytes.now },
    pub ghost fits: { place + length bytes.now < 2 ^ 64 },
}

impl<'b> Field<'b> {
    ghost use Rattle.std.specs.Prelude.{MatchResult};
    ghost use Rattle.promise.specs.Refusals.{number_of};
    ghost use Rattle.promise.specs.Book.{length_of, field_refusals};
    ghost use Rattle.promise.specs.declared.Stage.TheVariants.{Begun};
    ghost use Rattle.reading.specs.Parts.{FieldRight, facts_at, field_at};

    // The byte at an index, 0 behind the end.
    fn byte(&self, i: usize) -> u8
        ensures { result ≡ get_or self.now.bytes.now i 0 }
    {
        self.bytes.get(i).copied().unwrap_or(0)
    }

    // The length of the contents that the head gives, the high byte first.
    pub fn length(&self) -> usize
        ensures { (result ≡ length_of self.now.bytes.now) × (result < 65536) }
    {
        self.byte(1) as usize * 256 + self.byte(2) as usize
    }

    // What the field contains, or the refusal that it gives by its head.
    fn contents(&self, stage: Stage) -> Result<Contents, Refusal>
        ensures { MatchResult result (FieldRight stage self.now.bytes.now)
            (λ why. First (field_refusals stage self.now.bytes.now) (number_of why)) }
    {
        if self.bytes.len() < 3 {
            return Err(Refusal::CutShort);
        }
        let tag = Tag::try_from(self.byte(0))?;
        let contents = Contents::of(tag);
        if !contents.stand(stage) {
            return Err(Refusal::MisplacedTag);
        }
        let size = self.length();
        if !contents.allow(size) {
            return Err(Refusal::BadLength);
        }
        if self.bytes.len() - 3 < size {
            return Err(Refusal::CutShort);
        }
        Ok(contents)
    }

    // The facts of the field are followed from the left. That none of the refusals 1 to 4 is due stands in the clause,
    // as in `session`: the table is written to.
    fn follow(
        &self,
        facts: Facts,
        mut session: Session,
        table: &mut [u8],
    ) -> Result<Session, RefusedBook>
        requires whole { length_of self.now.bytes.now % width_of facts ≡ 0 }
        requires within { 3 + length_of self.now.bytes.now ≤ length self.now.bytes.now }
        requires stands { First (standing session table.old []) 0 }
        ensures { PartFollowed
            (facts_at facts (length_of self.now.bytes.now) (self.now.place + 3) (drop 3 self.now.bytes.now))
            session table.old (reply_of_read result) table.new }
    {
        for at in (3..3 + self.length()).step_by(facts.width()) {
            session = fact(facts, self.place + at, &self.bytes[at..], session, table)?;
        }
        Ok(session)
    }

    // The field is read, or refused by its head.
    pub fn read(
        &self,
        stage: Stage,
        session: Session,
        table: &mut [u8],
    ) -> Result<Session, RefusedBook>
        requires { stage ≡ Begun → First (standing session table.old []) 0 }
        ensures { PartFollowed (field_at stage self.now.place self.now.bytes.now) session table.old
            (reply_of_read result) table.new }
    {
        match placed(self.contents(stage), self.place, session)? {
            Contents::Classes => {
                let begun = session::fresh(self.byte(3) as usize, table);
                placed(begun, self.place, NO_SESSION)
            }
            Contents::Facts(facts) => self.follow(facts, session, table),
        }
    }
}

// A refusal inside a book gets its place, and the session that it gives back.
fn placed<T>(outcome: Result<T, Refusal>, place: usize, session: Session) -> Result<T, RefusedBook>
    ensures { result ≡ placed_at place session outcome }
{
    outcome.map_err(|why| RefusedBook {
        why,
        place,
        session,
    })
}

// The fact with which these bytes begin is told, or given as an answer.
fn fact(
    facts: Facts,
    place: usize,
    bytes: &[u8],
    session: Session,
    table: &mut [u8],
) -> Result<Session, RefusedBook>
    requires within { width_of facts ≤ length bytes.now }
    requires stands { First (standing session table.old []) 0 }
    ensures { PartFollowed (fact_at facts place bytes.now ∷ []) session table.old (reply_of_read result)
        table.new }
{
    let verdict = facts.verdict(bytes);
    if 1 < verdict {
        return Err(RefusedBook {
            why: Refusal::BadVerdict,
            place,
            session,
        });
    }
    let (lower, upper) = (bytes[0] as usize, bytes[1] as usize);
    let taken = take_fact(session, table, lower, upper, verdict == 1, facts.kind());
    placed(taken, place, session)
}
