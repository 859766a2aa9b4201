// The printing program, run on a book of 32,768 bytes, the most that it takes. It is `print`, with an input of its own
// in the gate.
#![tactic(auto)]

use printing::print_input;
use std::io;

fn main(rt: HostRuntime) -> io::Result<()> {
    print_input(&mut rt.stdin(), &mut rt.stdout(), &mut rt.stderr())
}
