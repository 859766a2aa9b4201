// What calls give, in words.
use promise::{Asked, Refusal, RefusedBook, Reply, Session};
use std::fmt;

// Why a call other than reading is refused: there the place is 0.
#[derive(Clone, Copy)]
struct Refused(Refusal);

impl fmt::Display for Refused {
    fn fmt<W: fmt::Write>(&self, f: &mut fmt::Formatter<W>) -> fmt::Result {
        write!(f, " refused {} place 0", self.0 as u8)
    }
}

// What a call that gives a session replied.
#[derive(Clone, Copy)]
pub struct Replied(pub Result<Session, RefusedBook>);

impl fmt::Display for Replied {
    fn fmt<W: fmt::Write>(&self, f: &mut fmt::Formatter<W>) -> fmt::Result {
        let Reply {
            number,
            place,
            session: Session { classes, tests },
        } = Reply::from(self.0);
        write!(
            f,
            "number {number} place {place} classes {classes} tests {tests}"
        )
    }
}

// What a call that counts gave.
#[derive(Clone, Copy)]
pub struct Counted(pub Result<usize, Refusal>);

impl fmt::Display for Counted {
    fn fmt<W: fmt::Write>(&self, f: &mut fmt::Formatter<W>) -> fmt::Result {
        match self.0 {
            Ok(count) => write!(f, " count {count}"),
            Err(why) => Refused(why).fmt(f),
        }
    }
}

// What next gave.
#[derive(Clone, Copy)]
pub struct Next(pub Result<Option<Asked>, Refusal>);

impl fmt::Display for Next {
    fn fmt<W: fmt::Write>(&self, f: &mut fmt::Formatter<W>) -> fmt::Result {
        match self.0 {
            Ok(Some(Asked { lower, upper })) => write!(f, " next ask {lower} {upper}"),
            Ok(None) => write!(f, " next done"),
            Err(why) => write!(f, " next{}", Refused(why)),
        }
    }
}

// All bytes of a buffer, a space before each.
#[derive(Clone, Copy)]
pub struct Bytes<'a>(pub &'a [u8]);

impl fmt::Display for Bytes<'_> {
    fn fmt<W: fmt::Write>(&self, f: &mut fmt::Formatter<W>) -> fmt::Result {
        for byte in self.0 {
            write!(f, " {byte}")?;
        }
        Ok(())
    }
}

// Marks in rows of so many classes; where there is no class all are one row. Too many are not shown.
#[derive(Clone, Copy)]
pub struct Rows<'a> {
    pub classes: usize,
    pub marks: &'a [u8],
}

impl Rows<'_> {
    const MOST: usize = 16;

    // One row: its marks behind a space.
    fn row<W: fmt::Write>(f: &mut fmt::Formatter<W>, row: &[u8]) -> fmt::Result {
        write!(f, " ")?;
        for mark in row {
            write!(f, "{mark}")?;
        }
        Ok(())
    }
}

impl fmt::Display for Rows<'_> {
    fn fmt<W: fmt::Write>(&self, f: &mut fmt::Formatter<W>) -> fmt::Result {
        if self.marks.len() > Self::MOST {
            return Ok(());
        }
        write!(f, " marks")?;
        let size = if self.classes == 0 {
            Self::MOST
        } else {
            self.classes
        };
        for row in self.marks.chunks(size) {
            Self::row(f, row)?;
        }
        Ok(())
    }
}
