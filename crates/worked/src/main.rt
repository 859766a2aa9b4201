// The worked marks of document 01, and clips, run one by one. The file `stdin` says which calls to make, one to a line;
// what each gives is printed, one line a call. The stored output is worked out by hand from those marks and the
// documents' rules. It is not taken from this program.
#![tactic(auto)]

mod numbers;
mod runner;
mod shown;

use buffers::fill;
use runner::Runner;
use std::io;

// Follows each line of the script on standard input. The last one may lack its end.
fn main(rt: HostRuntime) -> io::Result<()> {
    let mut script = [0; 4096];
    let count = fill(&mut rt.stdin(), &mut script)?;
    let mut runner = Runner::new();
    for line in script[..count].split_inclusive(|byte| *byte == b'\n') {
        runner.follow(&rt, line.strip_suffix(b"\n").unwrap_or(line))?;
    }
    Ok(())
}
