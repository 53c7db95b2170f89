//! Rows of calls on directories of names, over the slow server.
//!
//! A line `CALL => ANSWER` is written anew, with what the call answers now. Comments and blank lines stay. So rows
//! that come out as they went in are tests that were passed. The calls are:
//!
//! - `new`: a fresh slow server, of an empty root index.
//! - `mkdir PATH CAPACITY`, `bind PATH ID`, `look PATH`, `unbind PATH`, `list PATH`: a call of session 0. A path
//!   leads on from slot 0 of the root index, and `/` is what is there. An identifier is spelled as in request lines.
//! - `ask S LINE`: session S says the request line. All sessions have the same names for identifiers and grants.
#![tactic(auto)]

mod call;
mod fault;
mod printed;
mod served;

use call::answer;
use served::Slow;
use std::io;

/// Writes a line of the rows anew.
fn tell(rt: &HostRuntime, served: &mut Option<Slow>, line: &str) -> io::Result<()> {
    let Some((call, _)) = line.split_once(" => ") else {
        return println!(rt; "{line}");
    };
    match answer(served, rt.alloc(), call) {
        Ok(text) => println!(rt; "{call} => {text}"),
        Err(fault) => println!(rt; "{call} => {fault}"),
    }
}

fn main(rt: HostRuntime) -> io::Result<()> {
    let mut served = None;
    for line in rt.lines(rt.alloc()) {
        tell(&rt, &mut served, line?.as_str())?;
    }
    Ok(())
}
