//! words_table: reads lines such as `run d --workers 7`, a command and its words between single blanks, and prints what
//! they say, or `usage`. It serves to try the words of the commands.
#![tactic(auto)]

mod table;

use std::io;

fn main(rt: HostRuntime) -> io::Result<()> {
    for line in rt.lines(rt.alloc()) {
        let said = table::said(rt.alloc(), line?.as_str())?;
        println!(rt; "{said}")?;
    }
    Ok(())
}
