// The fact book of a table.
ghost use Rattle.std.specs.Prelude.{[], ◌∷◌, ◌+◌, ◌/◌, ◌%◌, ◌<◌, ◌≤◌, length};
ghost use Rattle.promise.specs.Calls.{Owed, count_of};
ghost use Rattle.promise.specs.Book.{tag_byte, write};
ghost use Rattle.buffers.specs.Placed.{Put};
ghost use Rattle.marks.specs.Bytes.{byte_of};
ghost use Rattle.book.specs.Fields.{PairsNoted, FieldFits, FieldPut, BookFits, BookPut, write_left};

use buffers::{put_byte, put_bytes, put_pair};
use marks::{Mark, Marks};
use promise::{Refusal, Session, Tag};

// Counts the pairs off the diagonal that have a mark. Each is written, two bytes, in row order, if it fits: a buffer
// with room for all gets all, and an empty one serves to count.
fn list_marked(marks: &Marks<'_>, wanted: Mark, out: &mut [u8]) -> usize
    ensures { PairsNoted marks.now.classes marks.now.bytes.now (byte_of wanted) out.old result out.new }
{
    let mut count: usize = 0;
    for a in 0..marks.classes {
        for b in 0..marks.classes {
            if a != b && marks.is(a, b, wanted) {
                put_pair(out, 2 * count, a, b);
                count += 1;
            }
        }
    }
    count
}

// The three head bytes of a field: its tag, and the length of its contents, the high byte first. Gives the index
// behind them.
fn write_head(out: &mut [u8], at: usize, tag: Tag, size: usize) -> usize
    requires { (at + 3 ≤ length out.old) × (size < 65536) }
    ensures { Put (tag_byte tag ∷ size / 256 ∷ size % 256 ∷ []) at out.old result out.new }
{
    let [high, low] = (size as u16).to_be_bytes();
    put_bytes(out, at, &[tag as u8, high, low])
}

// The field with the pairs off the diagonal that have a mark, from index at on. Gives the index behind it.
fn write_field(marks: &Marks<'_>, tag: Tag, wanted: Mark, out: &mut [u8], at: usize) -> usize
    requires { FieldFits marks.now.classes marks.now.bytes.now (byte_of wanted) out.old at }
    ensures { FieldPut marks.now.classes marks.now.bytes.now (tag_byte tag) (byte_of wanted) out.old at result out.new }
{
    let start = at + 3;
    let count = list_marked(marks, wanted, &mut out[start..]);
    let size = 2 * count;
    write_head(out, at, tag, size);
    start + size
}

// The three fields of a book that has room. Gives its length.
fn write_fields(marks: &Marks<'_>, out: &mut [u8]) -> usize
    requires { BookFits marks.now.classes marks.now.bytes.now out.old }
    ensures { BookPut marks.now.classes marks.now.bytes.now out.old result out.new }
{
    let contents = write_head(out, 0, Tag::ClassCount, 1);
    let facts = put_byte(out, contents, marks.classes as u8);
    let behind = write_field(marks, Tag::YesFacts, Mark::Yes, out, facts);
    write_field(marks, Tag::NoFacts, Mark::No, out, behind)
}

// The book of a table, where only 8 may still be due. Its pairs are counted before any byte is written, over an empty
// buffer.
fn write_book(marks: &Marks<'_>, out: &mut [u8]) -> Result<usize, Refusal>
    ensures { Owed (write_left marks.now.classes marks.now.bytes.now out.old) (count_of result, out.new) }
{
    let yes = list_marked(marks, Mark::Yes, &mut []);
    let no = list_marked(marks, Mark::No, &mut []);
    if out.len() < 10 + 2 * (yes + no) {
        return Err(Refusal::NoRoom);
    }
    Ok(write_fields(marks, out))
}

// Writes the book of a table, and gives its length. Refuses with 1 to 4, and with 8 if the buffer is too short; then no
// byte is written.
pub fn write(session: Session, table: &[u8], out: &mut [u8]) -> Result<usize, Refusal>
    ensures { Owed (write session table.now out.old) (count_of result, out.new) }
{
    let marks = standing::checked(session, table)?;
    write_book(&marks, out)
}
