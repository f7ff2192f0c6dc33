// walk: a session over a machine, a source and a store, run to the end and walked back, every answer printed.
#![tactic(auto)]

mod asked;
mod made;
mod printed;

use asked::read_request;
use made::walk;
use std::env;
use std::process::ExitCode;

fn walked(rt: &HostRuntime) -> anyhow::Result<ExitCode> {
    let args: Vec<String> = env::args(rt)?.collect(rt.alloc())?;
    match read_request(args.as_slice()) {
        Ok(ask) => {
            walk(rt, &ask)?;
            Ok(ExitCode::SUCCESS)
        }
        // the usage is longer than an error of anyhow keeps
        Err(misused) => {
            eprintln!(rt; "Error: {misused}")?;
            Ok(ExitCode::FAILURE)
        }
    }
}

fn main(rt: HostRuntime) -> anyhow::Result<ExitCode> {
    walked(&rt)
}
