ghost use Rattle.std.specs.Prelude.{◌≡◌, ◌++◌, Some, IfOk, OnOk};
ghost use Rattle.tools.specs.Report.{first_fault, line_of, said, text_of_report};

use itoa::Buffer;
use sk_types::{Bytes, NoMemory, SyntaxFault};
use std::alloc::Global;
use std::marker::Model;

/// A script's name, and its first fault where it does not read.
#[derive(Drop)]
pub struct Verdict {
    pub name: String,
    pub fault: Option<SyntaxFault>,
}

impl Model for Verdict {
    ghost use Rattle.std.specs.Prelude.{string_bytes};
    ghost use Rattle.tools.specs.Report.{Verdict as Said};

    ghost Value = { Said };

    ghost view = { λ v. record { name = string_bytes v.name; fault = v.fault } };
}

/// A line for each verdict.
pub fn report_text(alloc: Global, verdicts: &[Verdict]) -> Result<Bytes, NoMemory>
    ensures { IfOk result (λ text. text ≡ text_of_report verdicts.now) }
{
    let mut text = Bytes::new(alloc);
    for verdict in verdicts {
        push_line(&mut text, verdict)?;
    }
    Ok(text)
}

/// Adds `NAME: ok` or `NAME:LINE: KIND`.
fn push_line(text: &mut Bytes, verdict: &Verdict) -> Result<(), NoMemory>
    ensures { OnOk result (text.new ≡ text.old ++ line_of verdict.now) }
{
    text.push_slice(verdict.name.as_bytes())?;
    match verdict.fault {
        None => text.push_slice(b": ok")?,
        Some(fault) => push_fault(text, &fault)?,
    }
    text.push(b'\n')?;
    Ok(())
}

/// Adds `:LINE: KIND`.
fn push_fault(text: &mut Bytes, fault: &SyntaxFault) -> Result<(), NoMemory>
    ensures { OnOk result (text.new ≡ text.old ++ said (Some fault.now)) }
{
    let mut buffer = Buffer::new();
    text.push_slice(b":")?;
    text.push_slice(buffer.format(fault.line).as_bytes())?;
    text.push_slice(b": ")?;
    text.push_slice(fault.kind.text().as_bytes())?;
    Ok(())
}

/// The fault of the first script that does not read.
pub fn first_fault(verdicts: &[Verdict]) -> Option<SyntaxFault>
    ensures { result ≡ first_fault verdicts.now }
{
    for verdict in verdicts {
        if let Some(fault) = verdict.fault {
            return Some(fault);
        }
    }
    None
}
