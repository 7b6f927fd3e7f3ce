use sk_types::Handle;

/// Where a test may hold a worker. It changes nothing.
pub trait Gate {
    /// A worker has taken a message of this service.
    fn on_take(&self, worker: u32, handle: Handle);

    /// This service is about to put a message.
    fn in_put(&self, handle: Handle);
}

/// A gate that holds nobody.
#[derive(Clone, Copy, Debug, PartialEq, Eq)]
pub struct OpenGate;

impl Gate for OpenGate {
    fn on_take(&self, _worker: u32, _handle: Handle) {}

    fn in_put(&self, _handle: Handle) {}
}
