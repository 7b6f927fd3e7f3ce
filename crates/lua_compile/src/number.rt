//! Numbers, as operands hold them. No chunk that the parser reads comes near the ends of these ranges.

ghost use Rattle.std.specs.Prelude.{◌≡◌, ◌+◌, IfOk, neg_ℤ};

use sk_types::NoMemory;

/// A slot, a cell or a count of them.
pub fn slot_of(n: usize) -> Result<u16, NoMemory>
    ensures { IfOk result (λ slot. slot ≡ n) }
{
    match u16::try_from(n) {
        Ok(slot) => Ok(slot),
        Err(_) => Err(NoMemory),
    }
}

/// The slot so many after this one.
pub fn slot_after(slot: u16, count: usize) -> Result<u16, NoMemory>
    ensures { IfOk result (λ after. after ≡ slot + count) }
{
    match (slot as usize).checked_add(count) {
        Some(after) => slot_of(after),
        None => Err(NoMemory),
    }
}

/// A slot in an operation that names the first 256 alone.
pub fn short_of(slot: u16) -> Result<u8, NoMemory>
    ensures { IfOk result (λ short. short ≡ slot) }
{
    match u8::try_from(slot) {
        Ok(short) => Ok(short),
        Err(_) => Err(NoMemory),
    }
}

/// The place of an operation, a label, a constant or a function.
pub fn index_of(n: usize) -> Result<u32, NoMemory>
    ensures { IfOk result (λ index. index ≡ n) }
{
    match u32::try_from(n) {
        Ok(index) => Ok(index),
        Err(_) => Err(NoMemory),
    }
}

/// An integer in an operation that takes it.
pub fn word_of(n: i64) -> Result<i32, NoMemory>
    ensures { IfOk result (λ word. word ≡ n) }
{
    match i32::try_from(n) {
        Ok(word) => Ok(word),
        Err(_) => Err(NoMemory),
    }
}

/// An integer in a comparison that takes it.
pub fn byte_of(n: i64) -> Result<i8, NoMemory>
    ensures { IfOk result (λ byte. byte ≡ n) }
{
    match i8::try_from(n) {
        Ok(byte) => Ok(byte),
        Err(_) => Err(NoMemory),
    }
}

/// The same with its sign turned.
pub fn negative_of(n: i64) -> Result<i32, NoMemory>
    ensures { IfOk result (λ word. word ≡ neg_ℤ n) }
{
    let word = word_of(n)?;
    word_of(-(word as i64))
}

/// One more.
pub fn next_of(n: u32) -> Result<u32, NoMemory>
    ensures { IfOk result (λ next. next ≡ n + 1) }
{
    match n.checked_add(1) {
        Some(next) => Ok(next),
        None => Err(NoMemory),
    }
}
