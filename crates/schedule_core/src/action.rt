/// A step of a worker, which has this number; or of the clock.
#[derive(Clone, Copy, Debug, PartialEq, Eq)]
pub enum Action {
    /// Takes the first turn of the queue into an empty hand.
    Fetch(u32),
    /// The service whose turn is in hand does its next action.
    Act(u32),
    /// Puts the turn back: home where nothing waits for the service, or away for good where it is over.
    Park(u32),
    /// Puts the turn last into the queue, and takes the first.
    Exchange(u32),
    /// Agent 0 does its next action.
    Clock,
}
