/// Where the turn of a service is.
#[derive(Clone, Copy, Debug, PartialEq, Eq)]
pub enum Spot {
    /// With its mailbox, which is live and empty.
    Home,
    /// In the queue.
    Queued,
    /// In the hand of a worker.
    Hand,
    /// Nowhere: its service is over.
    Spent,
}

/// Where a turn is once a worker has put it back.
#[derive(Clone, Copy, Debug, PartialEq, Eq)]
pub enum Rest {
    /// With its mailbox.
    Home,
    /// Still in the hand, for there is work.
    Hand,
    /// Nowhere.
    Spent,
}
