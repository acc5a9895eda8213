// The program: a command on each line of standard input, and one line of answer to each on standard output.
#![tactic(auto)]

mod answers;
mod arguments;
mod commands;
mod errors;
mod execution;
mod help;
mod hexadecimal;
mod lengths;
mod names;
mod operands;
mod printable;
mod symbols;
mod tasks;
mod words;

use arguments::Request;
use errors::Failure;
use execution::reply;
use help::Help;
use std::env;
use std::io::{BufRead, BufReader};
use std::process::ExitCode;

// An `Err` of `main` would be printed as `Error: ..`, and this program's word is `error: ..`.
// The program `vectors` has the same lines: a library for them would be no plainer.
fn main(rt: HostRuntime) -> ExitCode {
    match run(&rt) {
        Ok(()) => ExitCode::SUCCESS,
        Err(error) => {
            let _ = eprintln!(rt; "error: {error}");
            ExitCode::FAILURE
        }
    }
}

fn run(rt: &HostRuntime) -> anyhow::Result<()> {
    match Request::read(env::args(rt)?)? {
        Request::Commands => answer_all(rt),
        Request::Help => Ok(rt.print(Help)?),
    }
}

// Each line is answered before the next is read, so that a person at a terminal gets an answer at once.
fn answer_all(rt: &HostRuntime) -> anyhow::Result<()> {
    for line in BufReader::new(rt.alloc(), rt.stdin())?.split(rt.alloc(), b'\n') {
        let line = line?;
        match reply(rt.alloc(), line.as_slice()) {
            Ok(Some(answer)) => rt.println(answer)?,
            Ok(None) => {}
            Err(failure @ Failure::OutOfMemory(_)) => return Err(failure.into()),
            Err(failure) => rt.println(failure)?,
        }
    }
    Ok(())
}
