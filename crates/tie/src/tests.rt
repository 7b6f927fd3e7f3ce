//! One agent, two places, and the halves between them.

use crate::{Half, Master, Tie, add, close, same_list};
use std::test::Fail;

#[test]
fn halves_are_made_and_let_go(rt: HostRuntime) -> Result<(), Fail> {
    let alloc = rt.alloc();
    let (tie, mut root) = Tie::<u32>::new(alloc)?;
    let mut master = root.master(&tie, 3);
    let (mut mine, mut yours) = master.pair(&tie, 0);
    add(&tie, &mut mine, &mut yours, &7);
    add(&tie, &mut mine, &mut yours, &8);
    same_list(&tie, &mut mine, &mut yours);
    let (first, second) = master.pair(&tie, 5);
    let masters: Vec<Master<u32>> = vec![in alloc; master]?;
    let halves: Vec<Half<u32>> = vec![in alloc; mine, yours, first, second]?;
    close(tie, root, masters, halves);
    Ok(())
}
