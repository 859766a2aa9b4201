// The call read: any bytes of any length, on any table.
#![tactic(auto)]

mod fields;
mod tags;

ghost use Rattle.promise.specs.Book.{BookRead, reply_of_read};

use fields::{Field, NO_SESSION};
use promise::{Refusal, RefusedBook, Session, Stage};

// Reads a book, field by field, on a fresh table. A refused book gives its number and place; session and table are
// those after the facts before it, and no session where no class count was accepted.
pub fn read(book: &[u8], table: &mut [u8]) -> Result<Session, RefusedBook>
    ensures { BookRead book.now table.old (reply_of_read result) table.new }
{
    if book.is_empty() {
        return Err(RefusedBook {
            why: Refusal::MisplacedTag,
            place: 0,
            session: NO_SESSION,
        });
    }
    let mut session = NO_SESSION;
    // The statements speak of the stage, and a session stands beside it at the start too.
    let mut stage = Stage::Start;
    let mut at = 0;
    // Each head says where the next field begins, so no range gives the places beforehand.
    while at < book.len() {
        let field = Field {
            place: at,
            bytes: &book[at..],
        };
        session = field.read(stage, session, table)?;
        stage = Stage::Begun;
        at += 3 + field.length();
    }
    Ok(session)
}
