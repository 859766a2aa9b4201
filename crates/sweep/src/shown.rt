// What calls give, as the numbers of their lines, which are those that C gets. The first two are the refusal number
// and its place, both 0 where the call is accepted, and the place is 0 outside books.
use promise::{Asked, CrossedCount, CrossedQuestion, Refusal, RefusedBook, Reply, Session};
use std::fmt;

// What a call that gives a session replied.
#[derive(Clone, Copy)]
pub struct Replied(pub Result<Session, RefusedBook>);

impl Replied {
    // Outside books a refused call gives back the session that it was given.
    pub fn of(after: Result<Session, Refusal>, given: Session) -> Replied {
        Replied(after.map_err(|why| RefusedBook {
            why,
            place: 0,
            session: given,
        }))
    }
}

impl fmt::Display for Replied {
    fn fmt<W: fmt::Write>(&self, f: &mut fmt::Formatter<W>) -> fmt::Result {
        let Reply {
            number,
            place,
            session: Session { classes, tests },
        } = Reply::from(self.0);
        write!(f, "{number} {place} {classes} {tests}")
    }
}

// What a call that counts gave. The count is 0 where the call is refused.
#[derive(Clone, Copy)]
pub struct Counted(pub Result<usize, Refusal>);

impl fmt::Display for Counted {
    fn fmt<W: fmt::Write>(&self, f: &mut fmt::Formatter<W>) -> fmt::Result {
        let CrossedCount {
            number,
            place,
            count,
        } = CrossedCount::from(self.0);
        write!(f, "{number} {place} {count}")
    }
}

// What next gave.
#[derive(Clone, Copy)]
pub struct Next(pub Result<Option<Asked>, Refusal>);

impl fmt::Display for Next {
    fn fmt<W: fmt::Write>(&self, f: &mut fmt::Formatter<W>) -> fmt::Result {
        let next = CrossedQuestion::from(self.0);
        write!(f, "{} {}", next.number, next.place)?;
        if next.asks {
            write!(f, " {} {}", next.lower, next.upper)?;
        }
        Ok(())
    }
}

// The digest of the bytes that were lent.
#[derive(Clone, Copy)]
pub struct Digest<'a>(pub &'a [u8]);

impl fmt::Display for Digest<'_> {
    fn fmt<W: fmt::Write>(&self, f: &mut fmt::Formatter<W>) -> fmt::Result {
        let digest = self.0.iter().fold(7, |digest: u32, byte| {
            ((u64::from(digest) * 31 + u64::from(*byte) + 1) % 2147483647) as u32
        });
        write!(f, "{digest}")
    }
}
