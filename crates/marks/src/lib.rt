// The marks in lent bytes. `passes`, right above, walks the table by index too; the rest of the library speaks of facts
// and sound tables, and never of an index.
#![tactic(auto)]

mod fresh;
mod lent;

ghost use Rattle.marks.specs.Bytes.{Decodes};

pub use fresh::{fresh_marks, index};
pub use lent::Marks;

// The three marks, and the bytes that they are.
#[derive(Clone, Copy, Debug, PartialEq, Eq)]
pub enum Mark {
    Open = 0,
    Yes = 1,
    No = 2,
}

// The mark that a byte is, or the byte where it is none.
impl TryFrom<u8> for Mark {
    type Error = u8;

    ghost try_from_gives = { Decodes };

    fn try_from(byte: u8) -> Result<Mark, u8> {
        match byte {
            0 => Ok(Mark::Open),
            1 => Ok(Mark::Yes),
            2 => Ok(Mark::No),
            none => Err(none),
        }
    }
}
