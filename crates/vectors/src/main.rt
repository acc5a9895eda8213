// Values published with BIP-93 and other known values, each compared with what the library answers.
#![tactic(auto)]

mod accepted;
mod buffers;
mod checks;
mod counts;
mod digits;
mod filled;
mod refusals;
mod refused;
mod seeds;
mod symbols;
mod tally;
mod written;

use std::process::ExitCode;
use tally::Tally;

// An error is printed here and ends the process with status 1; a main that returned it would print it once more.
// The program `movkrig` has the same lines: a library for them would be no plainer.
fn main(rt: HostRuntime) -> ExitCode {
    match run(&rt) {
        Ok(()) => ExitCode::SUCCESS,
        Err(error) => {
            let _ = eprintln!(rt; "error: {error}");
            ExitCode::FAILURE
        }
    }
}

// A line for each group, and the count of all. No table of the groups' functions: a pointer to a function that takes a
// `&mut Tally<'_>` gets no proof.
fn run(rt: &HostRuntime) -> anyhow::Result<()> {
    let mut all = Tally::new(rt.alloc(), "all");
    group(rt, &mut all, "seeds", seeds::compare)?;
    group(rt, &mut all, "written", written::compare)?;
    group(rt, &mut all, "accepted", accepted::compare)?;
    group(rt, &mut all, "refused", refused::compare)?;
    group(rt, &mut all, "counts", counts::compare)?;
    group(rt, &mut all, "digits", digits::compare)?;
    group(rt, &mut all, "buffers", buffers::compare)?;
    rt.println(all)?;
    Ok(())
}

// Compares the values of one group, and counts them with all.
fn group<F: FnOnce(&mut Tally<'_>) -> anyhow::Result<()>>(
    rt: &HostRuntime,
    all: &mut Tally<'_>,
    name: &str,
    compare: F,
) -> anyhow::Result<()>
    requires { F.IsAlwaysCallable compare }
{
    let mut tally = Tally::new(rt.alloc(), name);
    compare(&mut tally)?;
    rt.println(tally)?;
    all.join(tally);
    Ok(())
}
