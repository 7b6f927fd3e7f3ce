use lua_model::Binary;

/// Which integers may stay in the operation that takes them.
#[derive(Clone, Copy)]
pub enum Room {
    Nothing,
    Byte,
    Word,
}

/// Where the value of an expression goes.
#[derive(Clone, Copy)]
pub enum Aim {
    /// To this slot.
    Into(u16),
    /// Where it stands, or to the first free slot.
    Anywhere(Room),
    /// To the label `at` where it is false; where it is true so many ticks are paid, and the code goes on.
    Unless { at: u32, pay: u8 },
}

/// What an operation takes.
#[derive(Clone, Copy)]
pub enum Operand {
    Slot(u16),
    Constant(i64),
}

/// What is wanted of a call.
#[derive(Clone, Copy)]
pub enum Want {
    /// So many values, in slots.
    Count(u16),
    /// All values, on top of the lists.
    AsList,
    /// They are the results of the function.
    AsResult,
}

/// How an operator comes to its value.
#[derive(Clone, Copy)]
pub enum Link {
    /// `and`
    Both,
    /// `or`
    Either,
    /// By both operands.
    Strict(Binary),
}
