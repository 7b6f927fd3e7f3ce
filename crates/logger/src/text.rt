ghost use Rattle.std.specs.Prelude.{◌≡◌, ◌++◌, ◌∷◌, [], ◌<◌, ◌≤◌, IfOk, OnOk};
ghost use Rattle.message.specs.Texts.{hex, hex_digit, line as line_lem};

use sk_types::{Bytes, Handle, NoMemory};
use std::alloc::Global;

/// A text as the logger writes it: its source in eight hexadecimal digits, and a newline (service_logger.c).
pub fn line(alloc: Global, source: Handle, text: &Bytes) -> Result<Bytes, NoMemory>
    ensures { IfOk result (λ l. l ≡ line_lem source text.now) }
{
    let mut out = Bytes::new(alloc);
    out.push_slice(b"[:")?;
    push_hex(&mut out, 8, source.0)?;
    out.push_slice(b"] ")?;
    out.push_slice(text.as_slice())?;
    out.push(b'\n')?;
    Ok(out)
}

/// Adds the last so many digits of a number in base 16.
pub fn push_hex(out: &mut Bytes, digits: u32, number: u32) -> Result<(), NoMemory>
    ensures { OnOk result (out.new ≡ out.old ++ hex digits number) }
{
    if digits == 0 {
        return Ok(());
    }
    push_hex(out, digits - 1, number / 16)?;
    out.push(digit(number % 16))?;
    Ok(())
}

fn digit(value: u32) -> u8
    requires { value < 16 }
    ensures { result ≡ hex_digit value }
{
    if value < 10 {
        48 + value as u8
    } else {
        87 + value as u8
    }
}
