use sk_types::Bytes;

/// Where the code of a function finds the value of a name.
#[derive(Clone, Copy)]
pub enum Place {
    /// A local of the function that no closure captures, in a slot of the frame.
    InSlot(u16),
    /// A local of the function that closures share, in a cell of the frame.
    InCell(u16),
    /// A local of a function outside, in a cell of the closure.
    InUp(u16),
    /// A local of a function outside that this one does not use.
    Hidden,
}

/// A name in scope, and its place.
#[derive(Drop)]
pub struct Known {
    pub name: Bytes,
    pub place: Place,
}
