//! lua_bench: runs a chunk that is known by its name, and prints the integer that it returns. It serves to time the machine.
#![tactic(auto)]

mod bench;
mod chunks;

use bench::{BenchError, run};
use std::process::ExitCode;
use std::{env, io};

fn main(rt: HostRuntime) -> io::Result<ExitCode> {
    let words = env::args(&rt)?.skip(1).collect::<Vec<String>>(rt.alloc())?;
    match run(rt.alloc(), &words) {
        Ok(value) => {
            println!(rt; "{value}")?;
            Ok(ExitCode::from(0))
        }
        Err(error) => {
            eprintln!(rt; "lua_bench: {error}")?;
            Ok(ExitCode::from(status(error)))
        }
    }
}

/// The exit status of an error.
fn status(error: BenchError) -> u8 {
    match error {
        BenchError::Usage => 2,
        BenchError::Memory => 9,
        _ => 1,
    }
}
