// The lines that the printing program writes, put into a lent buffer.
#![tactic(auto)]

mod text;

ghost use Rattle.std.specs.Prelude.{◌≡◌, [], ◌+◌, ◌<◌, ◌≤◌, length};
ghost use Rattle.promise.specs.Refusals.{First, standing, too_long};
ghost use Rattle.promise.specs.Book.{reply_of_read};
ghost use Rattle.order.specs.Tables.{opens};
ghost use Rattle.buffers.specs.Placed.{Put};
ghost use Rattle.lines.specs.Lines.{refusal_line};
ghost use Rattle.lines.specs.Put.{QuestionPut, SettledPut, Settled, Reportable, Reported};

use dawnhangra::{hierarchy, next, open_pairs};
use promise::{Refusal, RefusedBook, Session};
use text::{put_counts, put_line, put_lines};

// The most bytes that the printing program reads.
pub const MOST_INPUT: usize = 32768;

// The line of an input that is too long. Gives the number of its bytes.
pub fn report_too_long(text: &mut [u8]) -> usize
    requires { 14 ≤ length text.old }
    ensures { Put (refusal_line (too_long 0).number 32768) 0 text.old result text.new }
{
    put_line(text, 0, b'R', Refusal::TooLong as usize, MOST_INPUT)
}

// How many pairs are open, where none of the refusals 1 to 4 is due: a call of the face takes any session and table,
// and no value that says more of them.
fn opened(session: Session, table: &[u8]) -> usize
    requires { First (standing session table.now []) 0 }
    ensures { result ≡ opens session.classes table.now }
{
    open_pairs(session, table).unwrap()
}

// The next question, where a pair is open.
fn put_question(session: Session, table: &[u8], text: &mut [u8], at: usize) -> usize
    requires { (First (standing session table.now []) 0) × (0 < opens session.classes table.now)
        × (at + 10 ≤ length text.old) }
    ensures { QuestionPut session.classes table.now at text.old result text.new }
{
    let asked = next(session, table).unwrap().unwrap();
    put_line(text, at, b'Q', asked.lower, asked.upper)
}

// The classes with their heads and the direct steps, where no pair is open.
fn put_settled(
    session: Session,
    table: &[u8],
    heads: &mut [u8],
    steps: &mut [u8],
    text: &mut [u8],
    at: usize,
) -> usize
    requires { Settled session table.now heads.old steps.old text.old at }
    ensures { SettledPut session.classes table.now at text.old result text.new }
{
    let count = hierarchy(session, table, heads, steps).unwrap();
    let of_classes = (0..session.classes as u8).zip(heads.iter().copied());
    let behind = put_lines(text, at, b'C', of_classes);
    let (pairs, _) = steps.as_chunks::<2>();
    let of_steps = pairs
        .iter()
        .take(count)
        .map(|[lower, upper]| (*lower, *upper));
    put_lines(text, behind, b'E', of_steps)
}

// What the printing program writes of a book that was read, and of the table that reading gave. Gives the number of
// bytes. The buffers for heads and steps are used on the way.
pub fn report(
    read: Result<Session, RefusedBook>,
    table: &[u8],
    heads: &mut [u8],
    steps: &mut [u8],
    text: &mut [u8],
) -> usize
    requires { Reportable (reply_of_read read) table.now heads.old steps.old text.old }
    ensures { Reported (reply_of_read read) table.now text.old result text.new }
{
    let session = match read {
        Ok(session) => session,
        Err(refused) => return put_line(text, 0, b'R', refused.why as usize, refused.place),
    };
    let pairs = opened(session, table);
    let behind = put_counts(text, session.classes, session.tests, pairs);
    if pairs == 0 {
        put_settled(session, table, heads, steps, text, behind)
    } else {
        put_question(session, table, text, behind)
    }
}
