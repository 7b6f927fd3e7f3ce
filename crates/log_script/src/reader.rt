ghost use Rattle.std.specs.Prelude.{◌≡◌, ◌==◌, ◌↔◌, List, ℕ, length, take_while, IsTrue, IfOk, IfErr, MatchOption};
ghost use Rattle.log_script.specs.Form.{HasNoLines, IsEnd, IsLine, IsRefused, Lines, NoLine, Logs, is_plain, not_built};

use crate::script::LogScript;
use sk_types::{Bytes, NoMemory, SyntaxFault, SyntaxKind};
use std::alloc::{AllocError, Global};
use thiserror::Error;

/// The greatest length of a script, in bytes.
const MAX_LEN: usize = 1_048_576;

const FIRST_LINE: &[u8] = b"local skynet = require \"skynet\"";

/// What stands before a text that is logged, with the end of the line before it, and after the text.
const OPENING: &[u8] = b"\nskynet.error(\"";

const CLOSING: &[u8] = b"\")";

/// Why a text gave no script.
#[derive(Clone, Copy, Debug, PartialEq, Eq, Error)]
pub enum LogError {
    #[error("out of memory")]
    Memory,
    #[error("{0}")]
    Fault(SyntaxFault),
}

impl From<NoMemory> for LogError {
    ghost use Rattle.std.specs.Prelude.{◌≡◌};
    ghost use Rattle.log_script.specs.declared.reader.LogError.TheVariants.{Memory};

    ghost from_gives = { λ _ error. error ≡ Memory };

    fn from(_error: NoMemory) -> LogError {
        LogError::Memory
    }
}

/// Reads a script that logs texts: the line that requires `skynet`, and then a line `skynet.error("..")` for each text.
pub fn read_log(alloc: Global, source: &[u8]) -> Result<LogScript, LogError>
    ensures read { IfOk result (λ texts. Logs source.now texts) }
    ensures alone { IfOk result (λ texts. (others : List (List ℕ)) → Logs source.now others → others ≡ texts) }
    ensures refused { IfErr result (IsRefused source.now) }
{
    if source.is_empty() {
        return Ok(LogScript::new(alloc));
    }
    if source.len() > MAX_LEN {
        return Err(not_built());
    }
    let Some(rest) = source.strip_prefix(FIRST_LINE) else {
        return Err(not_built());
    };
    read_lines(alloc, rest)
}

/// The fault of a text of another form.
fn not_built() -> LogError
    ensures { result ≡ LogError.Fault not_built }
{
    LogError::Fault(SyntaxFault {
        line: 1,
        kind: SyntaxKind::NotBuilt,
    })
}

/// Reads the lines after the first one.
fn read_lines(alloc: Global, source: &[u8]) -> Result<LogScript, LogError>
    ensures read { IfOk result (λ texts. Lines texts source.now) }
    ensures alone { IfOk result (λ texts. (others : List (List ℕ)) → Lines others source.now → others ≡ texts) }
    ensures refused { IfErr result (HasNoLines source.now) }
{
    let mut texts = LogScript::new(alloc);
    let mut rest = source;
    while let Some((text, after)) = next_line(rest) {
        texts.push(Bytes::from_slice(alloc, text)?)?;
        rest = after;
    }
    if is_end(rest) {
        Ok(texts)
    } else {
        Err(not_built())
    }
}

/// Whether a script may end here.
fn is_end(rest: &[u8]) -> bool
    ensures { IsTrue result ↔ IsEnd rest.now }
{
    match rest {
        [] | [b'\n'] => true,
        _ => false,
    }
}

/// The text of the next line, and what follows the line.
fn next_line(rest: &[u8]) -> Option<(&[u8], &[u8])>
    ensures { MatchOption result (NoLine rest.now) (λ line. IsLine rest.now line.0.now line.1.now) }
{
    let body = rest.strip_prefix(OPENING)?;
    let (text, after) = body.split_at(plain_len(body));
    let rest = after.strip_prefix(CLOSING)?;
    Some((text, rest))
}

/// How many bytes a text has from its beginning up to a quote, a backslash or an end of line.
fn plain_len(bytes: &[u8]) -> usize
    ensures { result ≡ length (take_while is_plain bytes.now) }
{
    bytes.iter().take_while(|b| is_plain(**b)).count()
}

fn is_plain(byte: u8) -> bool
    ensures { result ≡ is_plain byte }
{
    byte != b'"' && byte != b'\\' && byte != b'\r' && byte != b'\n'
}
