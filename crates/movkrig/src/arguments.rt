// What the program is asked to do by its arguments.
use std::env::Args;
use thiserror::Error;

#[derive(Clone, Copy, PartialEq, Eq, Debug)]
pub enum Request {
    // No argument: answer the commands on standard input.
    Commands,
    Help,
}

#[derive(Clone, Copy, PartialEq, Eq, Debug, Error)]
#[error("unknown argument: expected none, or --help")]
pub struct UnknownArgument;

impl Request {
    // The first argument is the program's own name. No `TryFrom`: arguments are read from the process, and no value is converted.
    pub fn read(args: Args) -> Result<Request, UnknownArgument> {
        let mut words = args.skip(1);
        let Some(word) = words.next() else {
            return Ok(Request::Commands);
        };
        if word.as_str() == "--help" && words.next().is_none() {
            Ok(Request::Help)
        } else {
            Err(UnknownArgument)
        }
    }
}
