// The printing program. In the gate a program has one input, so that it stands three times.
#![tactic(auto)]

use printing::print_input;
use std::io;

fn main(rt: HostRuntime) -> io::Result<()> {
    print_input(&mut rt.stdin(), &mut rt.stdout(), &mut rt.stderr())
}
