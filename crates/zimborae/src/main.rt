//! The planner as a program: calls come in on standard input, one a line, and each is answered by one line.
//!
//! | module | has |
//! |---|---|
//! | `words`, `why`, `call` | reading a line: numbers and ends, why it is no call, the calls |
//! | `desk`, `stop`, `answer` | answering a call: the draft and the open problem, why a call stops |
//! | `fault` | why a line is not answered |
//! | `shown`, `reply`, `hex` | an answer as a line |
//! | `script` | a run from its first line to its last |
#![tactic(auto)]

mod answer;
mod call;
mod desk;
mod fault;
mod hex;
mod reply;
mod script;
mod shown;
mod stop;
#[cfg(test)]
mod tests;
mod why;
mod words;

use anyhow::ensure;
use script::answer_all;
use std::io::{BufReader, BufWriter};

fn run(rt: &HostRuntime) -> anyhow::Result<()> {
    let mut input = BufReader::new(rt.alloc(), rt.stdin())?;
    let mut output = BufWriter::new(rt.alloc(), rt.stdout())?;
    ensure!(
        answer_all(rt.alloc(), &mut input, &mut output)?,
        "some lines are not answered"
    );
    Ok(())
}

fn main(rt: HostRuntime) -> anyhow::Result<()> {
    run(&rt)
}
