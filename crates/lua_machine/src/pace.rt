use lua_code::Op;

/// Where a run of quick operations stands: the operation that comes next, and the ticks that are left.
#[derive(Clone, Copy)]
pub struct Pace {
    pub at: usize,
    pub left: u64,
}

/// A call or a return that a run of quick operations came to.
#[derive(Clone, Copy)]
pub enum Pass {
    Call { base: u16, args: u16, results: u16 },
    Return { from: u16, count: u16 },
    /// It came to another operation, or to one that comes to a stop.
    Neither,
}

/// Where a run of quick operations came to: the operation there is not quick, or comes to a stop.
#[derive(Clone, Copy)]
pub struct Reached {
    pub pace: Pace,
    pub op: Op,
    pub pass: Pass,
}

/// Where a stretch of quick operations, calls and returns came to: the depth of the frame that runs, or that waits for the first of so many
/// inner calls, whose last one runs; and the pace.
#[derive(Clone, Copy)]
pub struct Halt {
    pub depth: usize,
    pub inner: usize,
    pub pace: Pace,
}

/// What is left after a stretch: so many inner calls run over the frames, and so many ticks.
#[derive(Clone, Copy)]
pub struct Hurry {
    pub inner: usize,
    pub left: u64,
}
