// A session and a table, and what the lines of a script do with them. A line is a heading, printed as it is, unless its
// first letter is that of one of these words:
//
//     bytes 9            the table lent from here on is 9 bytes, all 7, so that bytes left alone show; with no number
//                        it is all there are
//     marks 1 0 0 1      it is these bytes
//     session 3 1        the session is one of 3 classes with 1 test
//     fresh 3            the call on that table, and so on
//     tell yes 0 1       with that session
//     answer no 0 2
//     clip 0 1           a clip that 0 and 1 played; a class is below 128
//     hierarchy 4 3      with 4 bytes for heads and 3 for steps
//     ladder 0 2 3       from 0 to 2, with 3 bytes for rungs
//     read 1 0 1 3       these bytes as a book
//     write 23           with 23 bytes for the book
//     open_pairs         with that session
//
// A number is below 256, and a line has at most 32.
ghost use Rattle.std.specs.Prelude.{◌≤◌};

use crate::numbers::Numbers;
use crate::shown::{Bytes, Counted, Next, Replied, Rows};
use promise::{Clip, MOST_CLASSES, Refusal, RefusedBook, Session};
use std::io;

// The bytes of the table, for 128 classes.
const TABLE: usize = 16384;

// What a session is before one is made, and what a refused fresh gives back.
const NO_SESSION: Session = Session {
    classes: 0,
    tests: 0,
};

// How many bytes of the table are lent to calls, at most all. It stands apart, since the check has no rule for lending
// a part of an array beside a ghost field.
#[derive(Clone, Copy)]
struct Lent {
    count: usize,
    ghost within: { count ≤ 16384 },
}

// The session and the table that the next call is given.
#[derive(Drop)]
pub struct Runner {
    session: Session,
    table: [u8; TABLE],
    lent: Lent,
}

// A session made by hand.
fn session_of(classes: u8, tests: u8) -> Session {
    Session {
        classes: classes.into(),
        tests: tests.into(),
    }
}

// The clip that these classes played.
fn clip_of(classes: &[u8]) -> Clip {
    let mut played = [false; MOST_CLASSES];
    for class in classes {
        played[usize::from(*class) % MOST_CLASSES] = true;
    }
    Clip { played }
}

impl Runner {
    // No session is made yet, and nothing lent.
    pub fn new() -> Runner {
        Runner {
            session: NO_SESSION,
            table: [7; TABLE],
            lent: Lent { count: 0 },
        }
    }

    // Does what a line says.
    pub fn follow(&mut self, rt: &impl Print, line: &[u8]) -> io::Result<()> {
        let given = Numbers::of(line);
        let [a, b, c] = [0, 1, 2].map(|place| given.at(place));
        let yes_at = |place: usize| line.get(place) == Some(&b'y');
        match line {
            [b'b', ..] => self.lend_sevens(given.as_slice().first().copied()),
            [b'm', ..] => self.lend_these(&given),
            [b's', ..] => self.session = session_of(a, b),
            [b'f', ..] => self.fresh(rt, line, a)?,
            [b't', ..] => self.change(rt, line, |session, table| {
                dawnhangra::tell(session, table, a.into(), b.into(), yes_at(5))
            })?,
            [b'a', ..] => self.change(rt, line, |session, table| {
                dawnhangra::answer(session, table, a.into(), b.into(), yes_at(7))
            })?,
            [b'c', ..] => self.change(rt, line, |session, table| {
                dawnhangra::clip(session, table, clip_of(given.as_slice()))
            })?,
            [b'h', ..] => self.hierarchy(rt, a, b)?,
            [b'l', ..] => self.ladder(rt, a, b, c)?,
            [b'r', ..] => self.read(rt, given.as_slice())?,
            [b'w', ..] => self.write(rt, a)?,
            [b'o', ..] => self.open_pairs(rt)?,
            _ => {
                rt.write_all(line)?;
                rt.println("")?;
            }
        }
        Ok(())
    }

    // Lends so many bytes of the table, or all that there are, and makes them sevens.
    fn lend_sevens(&mut self, count: Option<u8>) {
        let count = count.map_or(TABLE, usize::from);
        self.lent = Lent { count };
        self.table[..count].fill(7);
    }

    // Lends as many bytes of the table as are given, and makes them these.
    fn lend_these(&mut self, given: &Numbers) {
        let given = given.as_slice();
        let count = given.len();
        self.lent = Lent { count };
        self.table[..count].copy_from_slice(given);
    }

    // The part of the table that is lent.
    fn lent(&self) -> &[u8] {
        &self.table[..self.lent.count]
    }

    // A call that may change the table, as it stands in the script, and what it replied.
    fn change<F: FnOnce(Session, &mut [u8]) -> Result<Session, Refusal>>(
        &mut self,
        rt: &impl Print,
        line: &[u8],
        call: F,
    ) -> io::Result<()>
        requires { F.IsAlwaysCallable call }
    {
        rt.write_all(line)?;
        let session = self.session;
        let replied = call(session, &mut self.table[..self.lent.count]);
        let replied = replied.map_err(|why| RefusedBook {
            why,
            place: 0,
            session,
        });
        self.reply(rt, replied)
    }

    // fresh is given no session: where it is refused there is none.
    fn fresh(&mut self, rt: &impl Print, line: &[u8], classes: u8) -> io::Result<()> {
        self.session = NO_SESSION;
        self.change(
            rt,
            line,
            |_, table| dawnhangra::fresh(classes.into(), table),
        )
    }

    // A book is read onto the table.
    fn read(&mut self, rt: &impl Print, book: &[u8]) -> io::Result<()> {
        rt.write_all(b"read")?;
        let replied = dawnhangra::read(book, &mut self.table[..self.lent.count]);
        self.reply(rt, replied)
    }

    // What a call replied, how many marks are open, which 01 writes as 0, what next asks then, and the marks.
    fn reply(&mut self, rt: &impl Print, replied: Result<Session, RefusedBook>) -> io::Result<()> {
        let session = replied.unwrap_or_else(|refused| refused.session);
        self.session = session;
        let marks = self.lent();
        let open = marks.iter().filter(|mark| **mark == 0).count();
        let next = dawnhangra::next(session, marks);
        let rows = Rows {
            classes: session.classes,
            marks,
        };
        println!(rt; ": {} open {open}{}{rows}", Replied(replied), Next(next))
    }

    // What hierarchy gave. The buffers that a call writes to start as nines, so that bytes left alone show.
    fn hierarchy(&self, rt: &impl Print, heads: u8, steps: u8) -> io::Result<()> {
        let mut heads_room = [9; 256];
        let mut steps_room = [9; 256];
        let heads = &mut heads_room[..usize::from(heads)];
        let steps = &mut steps_room[..usize::from(steps)];
        let counted = dawnhangra::hierarchy(self.session, self.lent(), heads, steps);
        println!(rt;
            "hierarchy:{} heads{} steps{}",
            Counted(counted),
            Bytes(heads),
            Bytes(steps)
        )
    }

    // What ladder gave from a to b.
    fn ladder(&self, rt: &impl Print, a: u8, b: u8, rungs: u8) -> io::Result<()> {
        let mut room = [9; 256];
        let rungs = &mut room[..usize::from(rungs)];
        let counted = dawnhangra::ladder(self.session, self.lent(), a.into(), b.into(), rungs);
        println!(rt; "ladder {a} {b}:{} rungs{}", Counted(counted), Bytes(rungs))
    }

    // What write gave.
    fn write(&self, rt: &impl Print, out: u8) -> io::Result<()> {
        let mut room = [9; 256];
        let out = &mut room[..usize::from(out)];
        let counted = dawnhangra::write(self.session, self.lent(), out);
        println!(rt; "write:{} bytes{}", Counted(counted), Bytes(out))
    }

    // What open_pairs gave.
    fn open_pairs(&self, rt: &impl Print) -> io::Result<()> {
        let counted = dawnhangra::open_pairs(self.session, self.lent());
        println!(rt; "open_pairs:{}", Counted(counted))
    }
}
