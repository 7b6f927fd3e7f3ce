use message::{Body, Datum};
use sk_types::Bytes;
use std::alloc::{AllocError, Global};
use std::str;

/// Bytes as the text that they are in a table of histories.
pub fn text_of(bytes: &Bytes) -> &str {
    str::from_utf8(bytes.as_slice()).unwrap_or("?")
}

fn add_datum(text: &mut String, datum: &Datum) -> Result<(), AllocError> {
    match datum {
        Datum::Nil => text.push_str("nil"),
        Datum::Bool(true) => text.push_str("true"),
        Datum::Bool(false) => text.push_str("false"),
        Datum::Int(n) => write!(text, "{n}"),
        Datum::Text(bytes) => {
            let quoted = text_of(bytes);
            write!(text, "\"{quoted}\"")
        }
        Datum::Table(_) => text.push_str("table"),
    }
}

/// The values of a body, between brackets.
pub fn values(alloc: Global, body: &Body) -> Result<String, AllocError> {
    let mut text = String::from_str(alloc, "(")?;
    let mut first = true;
    for datum in body.as_slice() {
        if !first {
            text.push_str(", ")?;
        }
        first = false;
        add_datum(&mut text, datum)?;
    }
    text.push(')')?;
    Ok(text)
}
