// Random calls of the library, by docs/SWEEP.md: the seed says which, and every answer is printed.
#![tactic(auto)]

mod calls;
mod draws;
mod given;
mod input;
mod rounds;
mod shown;
mod sweep;

use buffers::fill;
use input::Input;
use std::io;
use sweep::Sweep;

// The three numbers stand in the first 64 bytes of standard input. An error of reading or of writing ends the program.
fn main(rt: HostRuntime) -> io::Result<()> {
    let mut text = [0; 64];
    let count = fill(&mut rt.stdin(), &mut text)?;
    let Input { seed, rounds, most } = Input::from(&text[..count]);
    Sweep::new(rt.stdout(), seed).rounds(rounds, most)
}
