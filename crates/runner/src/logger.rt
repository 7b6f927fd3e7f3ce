ghost use Rattle.std.specs.Prelude.{◌≡◌, ◌++◌, OnOk, IfOk, string_bytes};
ghost use Rattle.runner.specs.Logger.{address_of, first_text, line_of};

use crate::message::Message;
use sk_types::{Bytes, Handle, Kind, NoMemory};
use std::alloc::Global;

/// Adds the logger's line for a message (`logger_cb` of service_logger.c, without its time stamp).
pub fn push_line(alloc: Global, out: &mut Bytes, message: &Message) -> Result<(), NoMemory>
    ensures { OnOk result (out.new ≡ out.old ++ line_of message.now) }
{
    let Kind::Text = message.kind else {
        return Ok(());
    };
    let address = address(alloc, message.source)?;
    out.push(b'[')?;
    out.push_slice(address.as_str().as_bytes())?;
    out.push_slice(b"] ")?;
    out.push_slice(first_text(message.body.as_slice()))?;
    out.push(b'\n')
}

/// A service's address as text (`skynet.address` of skynet.lua).
fn address(alloc: Global, handle: Handle) -> Result<String, NoMemory>
    ensures { IfOk result (λ text. string_bytes text ≡ address_of handle) }
{
    let text = format!(in alloc; ":{:08x}", handle.0)?;
    Ok(text)
}

/// The first text of a body, or none.
fn first_text(texts: &[Bytes]) -> &[u8]
    ensures { result.now ≡ first_text texts.now }
{
    match texts.first() {
        Some(text) => text.as_slice(),
        None => &[],
    }
}
