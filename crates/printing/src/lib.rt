// The printing program's one function: it reads a book from its input and writes what the library says of it to its
// output.
#![tactic(auto)]

mod input;

ghost use Rattle.printing.specs.Answers.{Room, Answered, Input, Decided};

use dawnhangra::read;
use input::{Gathered, gather};
use lines::{MOST_INPUT, report, report_too_long};
use std::io;
use std::io::{Read, Write};

// What is written of a book. Once the class count is known, the first n*n bytes of the table are what is lent.
fn answer(
    book: &[u8],
    table: &mut [u8],
    heads: &mut [u8],
    steps: &mut [u8],
    text: &mut [u8],
) -> usize
    requires { Room table.old heads.old steps.old text.old }
    ensures { Answered book.now table.old text.old result text.new }
{
    let read = read(book, table);
    let classes = read.map_or(0, |session| session.classes);
    report(read, &table[..classes * classes], heads, steps, text)
}

// What is written of the input: the line of 15 where more came than the buffer holds, and what there is to say of the
// book where it did not.
#[tactic(auto, using(crate::proofs::Deciding::more_decided, crate::proofs::Deciding::whole_decided))]
fn decide(
    input: &[u8],
    came: Gathered,
    table: &mut [u8],
    heads: &mut [u8],
    steps: &mut [u8],
    text: &mut [u8],
) -> usize
    requires { Input input.now came.count came.behind × Room table.old heads.old steps.old text.old }
    ensures { Decided input.now came.count came.behind table.old text.old result text.new }
{
    if came.behind > 0 {
        return report_too_long(text);
    }
    answer(&input[..came.count], table, heads, steps, text)
}

// A read that fails is no verdict: it is said among the errors alone.
fn complain<E: Write>(errors: &mut E) -> io::Result<()> {
    errors.write_all(b"dawnhangra: the input cannot be read\n")
}

// What there is to decide is decided above. What is left here is no part of a contract: that the numbers of bytes read
// are passed on as reading gave them, and that the text is written as it was put.
pub fn print_input<R: Read, W: Write, E: Write>(
    reader: &mut R,
    writer: &mut W,
    errors: &mut E,
) -> io::Result<()> {
    let mut table: [u8; 16384] = [0; 16384];
    let mut input: [u8; MOST_INPUT] = [0; MOST_INPUT];
    let mut heads: [u8; 128] = [0; 128];
    let mut steps: [u8; 8192] = [0; 8192];
    let mut text: [u8; 65536] = [0; 65536];
    let Ok(came) = gather(reader, &mut input) else {
        return complain(errors);
    };
    let size = decide(&input, came, &mut table, &mut heads, &mut steps, &mut text);
    writer.write_all(&text[..size])
}
