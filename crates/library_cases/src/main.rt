//! library_cases: plays the lines of its input, calls of one service's library, and prints what comes of each.
#![tactic(auto)]

mod error;
mod line;
mod outcome;
mod player;
mod values;
mod words;

use player::Player;

fn main(rt: HostRuntime) -> anyhow::Result<()> {
    let mut player = Player::new(rt.alloc());
    for line in rt.lines(rt.alloc()) {
        let text = line?;
        let outcome = player.play(text.as_str())?;
        println!(rt; "{text}{outcome}")?;
    }
    Ok(())
}
