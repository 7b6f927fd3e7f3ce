use sk_types::Bytes;

/// What a use of a name means. A local has a number: how many locals of the chunk are declared before it in the text.
#[derive(Clone, Copy, Debug, PartialEq, Eq)]
pub enum Use {
    /// A local of the function itself.
    Local(u64),
    /// A local of a function outside.
    Upvalue(u64),
    Global,
}

/// A name in scope, and the number of its local.
#[derive(Drop)]
pub struct Seen {
    pub name: Bytes,
    pub local: u64,
}
