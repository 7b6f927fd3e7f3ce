use lua_model::{Binary, Unary};

/// One operation. A slot is a place in the frame of the function, a cell one of the frame's cells, and `up` one of the closure's.
/// A jump names the place that it goes to. `pay` is a count of ticks. The operations that run most often name the first 256 slots
/// alone, so that each operation takes 8 bytes; for every one of them there is another that names any slot.
#[derive(Clone, Copy)]
pub enum Op {
    Nil {
        to: u16,
    },
    Bool {
        to: u16,
        value: bool,
    },
    Int {
        to: u16,
        value: i32,
    },
    Constant {
        to: u16,
        index: u32,
    },
    Move {
        to: u16,
        from: u16,
    },

    /// A new cell with the value of a slot: a local that a closure captures.
    NewCell {
        cell: u16,
        from: u16,
    },
    GetCell {
        to: u16,
        cell: u16,
    },
    SetCell {
        cell: u16,
        from: u16,
    },
    GetUp {
        to: u16,
        up: u16,
    },
    SetUp {
        up: u16,
        from: u16,
    },
    /// A closure of a function of the code.
    Close {
        to: u16,
        function: u32,
    },
    /// A new cell with a closure that may capture this cell too: a local function that names itself.
    CloseCell {
        cell: u16,
        function: u32,
    },

    Add {
        to: u8,
        left: u8,
        right: u8,
    },
    Sub {
        to: u8,
        left: u8,
        right: u8,
    },
    Mul {
        to: u8,
        left: u8,
        right: u8,
    },
    AddInt {
        to: u8,
        left: u8,
        value: i32,
    },
    MulInt {
        to: u8,
        left: u8,
        value: i32,
    },
    /// Any operator with an integer as its right operand.
    BinaryInt {
        op: Binary,
        to: u8,
        left: u8,
        value: i32,
    },
    Binary {
        op: Binary,
        to: u16,
        left: u16,
        right: u16,
    },
    Unary {
        op: Unary,
        to: u16,
        from: u16,
    },

    Tick {
        pay: u8,
    },
    Jump {
        at: u32,
    },
    /// Pays and jumps, also back.
    Loop {
        pay: u8,
        at: u32,
    },
    /// Goes on where the slot is true, and else jumps.
    Test {
        from: u16,
        at: u32,
    },
    /// Goes on where the slot is false, and else jumps.
    TestNot {
        from: u16,
        at: u32,
    },
    /// Pays and goes on where the comparison holds, and else jumps.
    UnlessLess {
        left: u8,
        right: u8,
        pay: u8,
        at: u32,
    },
    UnlessLessEqual {
        left: u8,
        right: u8,
        pay: u8,
        at: u32,
    },
    UnlessEqual {
        left: u8,
        right: u8,
        pay: u8,
        at: u32,
    },
    UnlessNotEqual {
        left: u8,
        right: u8,
        pay: u8,
        at: u32,
    },
    UnlessLessInt {
        left: u8,
        value: i8,
        pay: u8,
        at: u32,
    },
    UnlessLessEqualInt {
        left: u8,
        value: i8,
        pay: u8,
        at: u32,
    },
    UnlessGreaterInt {
        left: u8,
        value: i8,
        pay: u8,
        at: u32,
    },
    UnlessGreaterEqualInt {
        left: u8,
        value: i8,
        pay: u8,
        at: u32,
    },
    UnlessEqualInt {
        left: u8,
        value: i8,
        pay: u8,
        at: u32,
    },
    UnlessNotEqualInt {
        left: u8,
        value: i8,
        pay: u8,
        at: u32,
    },

    /// Begins a numeric `for` over the slots base (first, then turns left), base + 1 (limit, then value), base + 2 (step) and base + 3, which the body sees:
    /// pays for the first turn and goes on, or jumps where there is none.
    ForPrep {
        pay: u8,
        base: u16,
        at: u32,
    },
    /// Pays for the next turn and jumps back, or goes on where none is left.
    ForLoop {
        pay: u8,
        base: u16,
        at: u32,
    },
    /// Calls the iterator in the slot base with base + 1 and base + 2; its first `results` values go to base + 3 and on.
    ForCall {
        base: u16,
        results: u16,
    },
    /// Where base + 3 is not nil, it becomes base + 2, and the turn is paid and jumped to; else goes on.
    ForEach {
        pay: u8,
        base: u16,
        at: u32,
    },

    /// Calls the slot base with the `args` slots after it; the first `results` values go to base and on.
    Call {
        base: u16,
        args: u16,
        results: u16,
    },
    /// Calls the slot base with the `args` slots after it; all results are put on top of the lists.
    CallAll {
        base: u16,
        args: u16,
    },
    /// Calls a closure in place of the body that runs. Any other value is called as by `CallAll`, and a `ReturnList` follows.
    TailCall {
        base: u16,
        args: u16,
    },
    Return {
        from: u16,
        count: u16,
    },

    /// An empty list is put on top of the lists.
    Begin,
    /// The slot's value goes last into the list on top.
    Push {
        from: u16,
    },
    /// The list on top goes to the end of the one below it.
    Append,
    /// The function's further arguments are put on top.
    Dots,
    /// The first `count` of the function's further arguments go to slots, filled with nil.
    DotsTo {
        to: u16,
        count: u16,
    },
    /// The first `count` values of the list on top go to slots, filled with nil; the list is dropped.
    Spread {
        to: u16,
        count: u16,
    },
    /// The value at a place of the list on top, or nil; the list stays.
    Item {
        to: u16,
        index: u32,
    },
    /// Calls the first value of the list on top with the others; the results are put on top. The slots from base on are free.
    CallList {
        base: u16,
    },
    /// The same in place of the body that runs, as `TailCall`.
    TailCallList {
        base: u16,
    },
    ReturnList,
    /// The call with which a thread begins: as `CallList`, but no term of a script makes it.
    Start,
}
