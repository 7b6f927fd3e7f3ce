ghost use Rattle.std.specs.Prelude.{◌≡◌, IfOk};
ghost use Rattle.lua_model.specs.Refusal.{refusal_text, position_text};

use itoa::Buffer;
use lua_value::Value;
use sk_types::{Bytes, NoMemory};
use std::alloc::Global;

/// Why an operation is refused; the text of the error names the types of the values.
#[derive(Clone, Copy, Debug, PartialEq, Eq)]
pub enum Refusal {
    /// The first operand that is no integer.
    Arithmetic(Value),
    /// The first operand that is no integer.
    Bitwise(Value),
    /// The first operand that is neither a string nor an integer.
    Concatenate(Value),
    Length(Value),
    Compare(Value, Value),
    Index(Value),
    Call(Value),
    DivideByZero,
    /// A numeric `for` over something else than integers.
    ForValues,
    ForStep,
    /// A table's key that is nil.
    NilIndex,
    StackOverflow,
    /// Too many `__index`, `__newindex` or `__call` in a row.
    ChainTooLong,
}

// "attempt to WHAT a TYPE value"
fn of_one(alloc: Global, start: &[u8], value: &Value) -> Result<Bytes, NoMemory>
    ensures { IfOk result (λ b. b ≡ on_value start.now value.now) }
{
    let mut text = Bytes::from_slice(alloc, start)?;
    text.push_slice(value.type_name())?;
    text.push_slice(b" value")?;
    Ok(text)
}

ghost use Rattle.lua_model.specs.Refusal.{on_value};

fn of_two(alloc: Global, left: &Value, right: &Value) -> Result<Bytes, NoMemory>
    ensures { IfOk result (λ b. b ≡ compare_text left.now right.now) }
{
    let mut text = Bytes::from_slice(alloc, b"attempt to compare ")?;
    text.push_slice(left.type_name())?;
    text.push_slice(b" with ")?;
    text.push_slice(right.type_name())?;
    Ok(text)
}

ghost use Rattle.lua_model.specs.Refusal.{compare_text};

impl Refusal {
    /// The text of the error, without a position.
    pub fn text(&self, alloc: Global) -> Result<Bytes, NoMemory>
        ensures { IfOk result (λ b. b ≡ refusal_text self.now) }
    {
        match self {
            Refusal::Arithmetic(v) => of_one(alloc, b"attempt to perform arithmetic on a ", v),
            Refusal::Bitwise(v) => of_one(alloc, b"attempt to perform bitwise operation on a ", v),
            Refusal::Concatenate(v) => of_one(alloc, b"attempt to concatenate a ", v),
            Refusal::Length(v) => of_one(alloc, b"attempt to get length of a ", v),
            Refusal::Compare(left, right) => of_two(alloc, left, right),
            Refusal::Index(v) => of_one(alloc, b"attempt to index a ", v),
            Refusal::Call(v) => of_one(alloc, b"attempt to call a ", v),
            Refusal::DivideByZero => Bytes::from_slice(alloc, b"attempt to divide by zero"),
            Refusal::ForValues => Bytes::from_slice(alloc, b"for values must be integers"),
            Refusal::ForStep => Bytes::from_slice(alloc, b"for step is zero"),
            Refusal::NilIndex => Bytes::from_slice(alloc, b"index is nil"),
            Refusal::StackOverflow => Bytes::from_slice(alloc, b"stack overflow"),
            Refusal::ChainTooLong => Bytes::from_slice(alloc, b"metamethod chain too long"),
        }
    }
}

/// What stands before the text of an error: the script and the line, as `name.lua:7: `.
pub fn position(alloc: Global, name: &Bytes, line: u32) -> Result<Bytes, NoMemory>
    ensures { IfOk result (λ b. b ≡ position_text name.now line) }
{
    let mut buffer = Buffer::new();
    let mut text = name.copy(alloc)?;
    text.push_slice(b".lua:")?;
    text.push_slice(buffer.format(line).as_bytes())?;
    text.push_slice(b": ")?;
    Ok(text)
}
