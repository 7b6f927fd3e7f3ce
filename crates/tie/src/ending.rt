use crate::master::Master;
use crate::pair::Half;
use crate::root::{Root, Tie};

/// Ends a tie: the root, all its masters and all their halves are let go, and then the table.
pub fn close<E: Drop>(tie: Tie<E>, root: Root<E>, masters: Vec<Master<E>>, halves: Vec<Half<E>>) {
    drop(halves);
    drop(masters);
    drop(root);
    drop(tie);
}
