//! lua_cases: runs the chunks of its input, each of which stands there with what becomes of it, and tells where something else does.
#![tactic(auto)]

mod case;
mod line;
mod outcome;
mod tally;

use case::Case;
use line::Line;
use std::process::ExitCode;
use tally::Tally;

fn main(rt: HostRuntime) -> anyhow::Result<ExitCode> {
    let mut case = Case::new(rt.alloc());
    let mut tally = Tally::new(rt.alloc());
    for line in rt.lines(rt.alloc()) {
        let text = line?;
        tally.turn(&rt, &mut case, Line::read(text.as_str()))?;
    }
    tally.end_section(&rt)?;
    Ok(tally.status())
}
