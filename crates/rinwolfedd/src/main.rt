// A session of document 01: its lines come from standard input, and the answers go to standard output. If a write fails, the error ends the program.
#![tactic(auto)]

use std::io;

fn main(rt: HostRuntime) -> io::Result<()> {
    let _ran = stream::run(&mut rt.stdin(), &mut rt.stdout())?;
    Ok(())
}
