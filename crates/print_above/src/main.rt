// The printing program, run on one byte more than it takes. It is `print`, with an input of its own in the gate.
#![tactic(auto)]

use printing::print_input;
use std::io;

fn main(rt: HostRuntime) -> io::Result<()> {
    print_input(&mut rt.stdin(), &mut rt.stdout(), &mut rt.stderr())
}
