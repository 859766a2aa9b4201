// Bytes read from an input.
ghost use Rattle.std.specs.Prelude.{◌<◌, ◌≤◌, length, take, IfOk};
ghost use Rattle.std.specs.Io.KnownBytes.{Consumes, IsAtEnd};

use std::io;
use std::io::Read;

// Reads until the buffer is full or the input ends, and gives how many bytes came: they are the next of the input, and
// where they are fewer than the buffer holds, the input has ended.
pub fn fill<R: Read>(reader: &mut R, buffer: &mut [u8]) -> io::Result<usize>
    ensures within { IfOk result (λ count. count ≤ length buffer.new) }
    ensures next { IfOk result
        (λ count. Consumes (R.remaining reader.old) (R.remaining reader.new) (take count buffer.new)) }
    ensures ended { IfOk result (λ count. count < length buffer.new → IsAtEnd (R.remaining reader.new)) }
{
    // A read gives as many bytes as it likes, and `read_exact` does not say how many came before an end.
    let mut count: usize = 0;
    while count < buffer.len() {
        match reader.read(&mut buffer[count..])? {
            0 => break,
            got => count += got,
        }
    }
    Ok(count)
}
