// Numbers and lines, put into a buffer from an index on. Each function gives the index behind what it put.
// The contracts say every byte of a lent buffer, which those of `write!` do not; a `String` would be on the heap.
ghost use Rattle.std.specs.Prelude.{◌++◌, ◌+◌, ◌*◌, ◌≤◌, List, length};
ghost use Rattle.std.specs.Iterator.{Drains, IsFinite, size};
ghost use Rattle.order.specs.Tables.{Pair};
ghost use Rattle.buffers.specs.Placed.{Put};
ghost use Rattle.buffers.specs.Decimal.{decimal};
ghost use Rattle.lines.specs.Lines.{line, counts_line};
ghost use Rattle.lines.specs.Put.{lines};

use buffers::{put_byte, put_bytes, put_number};

// A number, behind the bytes that announce it.
fn put_announced(text: &mut [u8], at: usize, before: &[u8], number: usize) -> usize
    requires { at + length (before.now ++ decimal number) ≤ length text.old }
    ensures { Put (before.now ++ decimal number) at text.old result text.new }
{
    let behind = put_bytes(text, at, before);
    put_number(text, behind, number)
}

// A letter, two numbers and a line feed.
pub fn put_line(text: &mut [u8], at: usize, letter: u8, first: usize, second: usize) -> usize
    requires { at + length (line letter first second) ≤ length text.old }
    ensures { Put (line letter first second) at text.old result text.new }
{
    let mut behind = put_announced(text, at, &[letter, b' '], first);
    behind = put_announced(text, behind, b" ", second);
    put_byte(text, behind, b'\n')
}

// A line for each pair of bytes that comes, each of at most 10 bytes.
pub fn put_lines<I: Iterator<Item = (u8, u8)>>(
    text: &mut [u8],
    at: usize,
    letter: u8,
    pairs: I,
) -> usize
    requires can { I.can_next pairs }
    requires finite { IsFinite (I.remaining pairs) }
    requires room { at + 10 * size (I.remaining pairs) ≤ length text.old }
    ensures put { (come : List Pair) × Drains I.next_gives pairs come
        × Put (lines letter come) at text.old result text.new }
    ensures short { result ≤ at + 10 * size (I.remaining pairs) }
{
    let mut behind = at;
    for (first, second) in pairs {
        behind = put_line(
            text,
            behind,
            letter,
            usize::from(first),
            usize::from(second),
        );
    }
    behind
}

// The classes, the tally and the number of open pairs, each behind its letter, and a line feed.
pub fn put_counts(text: &mut [u8], classes: usize, tests: usize, pairs: usize) -> usize
    requires { length (counts_line classes tests pairs) ≤ length text.old }
    ensures { Put (counts_line classes tests pairs) 0 text.old result text.new }
{
    let mut behind = put_announced(text, 0, b"N ", classes);
    behind = put_announced(text, behind, b" T ", tests);
    behind = put_announced(text, behind, b" O ", pairs);
    put_byte(text, behind, b'\n')
}
