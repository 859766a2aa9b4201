// The input, read whole or not at all.
ghost use Rattle.std.specs.Prelude.{IfOk};
ghost use Rattle.printing.specs.Answers.{Held};

use buffers::fill;
use std::io;
use std::io::Read;

// What the input gave: how many bytes stand at the front of the buffer, and how many came behind a full one.
#[derive(Clone, Copy)]
pub struct Gathered {
    pub count: usize,
    pub behind: usize,
}

// Fills the buffer, and where it is full asks for one byte more.
pub fn gather<R: Read>(reader: &mut R, input: &mut [u8]) -> io::Result<Gathered>
    ensures { IfOk result (λ came. Held input.new came.count came.behind) }
{
    let count = fill(reader, input)?;
    let behind = if count < input.len() {
        0
    } else {
        fill(reader, &mut [0])?
    };
    Ok(Gathered { count, behind })
}
