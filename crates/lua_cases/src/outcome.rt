use itoa::Buffer;
use lua_chunk::LoadError;
use lua_machine::{Machine, Stop};
use lua_value::Value;
use std::alloc::{AllocError, Global};

fn add_integer(text: &mut String, n: i64) -> Result<(), AllocError> {
    let mut buffer = Buffer::new();
    text.push_str(buffer.format(n))
}

/// Adds bytes, with `\n` and decimal escapes for those that are not printed as they are.
fn add_bytes(text: &mut String, bytes: &[u8]) -> Result<(), AllocError> {
    for byte in bytes {
        match *byte {
            b'\n' => text.push_str("\\n")?,
            printed @ 32..=126 => text.push(char::from(printed))?,
            other => {
                text.push('\\')?;
                add_integer(text, i64::from(other))?;
            }
        }
    }
    Ok(())
}

fn add_text(text: &mut String, quoted: &[u8]) -> Result<(), AllocError> {
    text.push('"')?;
    add_bytes(text, quoted)?;
    text.push('"')
}

/// Adds an integer, a string or a boolean, and the name of the type of any other value.
fn add_value(text: &mut String, machine: &Machine, value: Value) -> Result<(), AllocError> {
    match value {
        Value::Int(n) => add_integer(text, n),
        Value::Text(number) => add_text(text, machine.heap().bytes(number)),
        Value::Bool(true) => text.push_str("true"),
        Value::Bool(false) => text.push_str("false"),
        _ => add_bytes(text, value.type_name()),
    }
}

/// A word, and values after it.
fn listed(
    alloc: Global,
    word: &str,
    machine: &Machine,
    values: &[Value],
) -> Result<String, AllocError> {
    let mut text = String::from_str(alloc, word)?;
    for value in values {
        text.push(' ')?;
        add_value(&mut text, machine, *value)?;
    }
    Ok(text)
}

/// Where a chunk has stopped.
pub fn of_stop(alloc: Global, machine: &Machine, stop: &Stop) -> Result<String, AllocError> {
    match stop {
        Stop::Return(values) => listed(alloc, "gives", machine, values.as_slice()),
        Stop::Raise(value) => listed(alloc, "raises", machine, &[*value]),
        Stop::Native(call) => listed(alloc, "asks", machine, call.args.as_slice()),
        Stop::Budget => String::from_str(alloc, "budget"),
        Stop::HeapFull => String::from_str(alloc, "heap full"),
    }
}

/// Why a chunk is not loaded: the line and the text of its fault, say.
pub fn of_error(alloc: Global, error: LoadError) -> Result<String, AllocError> {
    match error {
        LoadError::Memory => String::from_str(alloc, "no memory"),
        LoadError::NoCode => String::from_str(alloc, "no code"),
        LoadError::Fault(fault) => format!(in alloc; "line {}: {}", fault.line, fault.kind),
    }
}
