// The page of document 02, P1: the lines of a session come from standard input, and the page of the store that it leaves goes to standard output. If a write
// fails, the error ends the program.
#![tactic(auto)]

use std::io;

fn main(rt: HostRuntime) -> io::Result<()> {
    let _ran = stream::page(&mut rt.stdin(), &mut rt.stdout())?;
    Ok(())
}
