ghost use Rattle.std.specs.Prelude.{◌≡◌, IfOk, true};
ghost use Rattle.sk_types.specs.declared.fault.SyntaxFault.{SyntaxFault};
ghost use Rattle.lua_tree.specs.declared.tree.Chunk.{Chunk};
ghost use Rattle.lua_grammar.specs.Faults.{IsTokenFault, ReadsAs, opening};
ghost use Rattle.lua_grammar.specs.Lexeme.{lexeme_of, lexemes_of};
ghost use Rattle.lua_grammar.specs.Machine.{feed, finish};
ghost use Rattle.lua_grammar.specs.Reading.{judged, reading};
ghost use Rattle.lua_parser.specs.Answers.{Faults, Gives};
ghost use Rattle.lua_parser.specs.Turns.{state_of};
ghost use Rattle.lua_parser.specs.Verdicts.{Fed, Finished, Judged, Reads};

use crate::error::ParseError;
use crate::reader::{Reader, Turn};
use crate::table::{end_turn, turn};
use crate::verdict::{outside, stray};
use lua_tree::{Chunk, Token};
use sk_types::{NoMemory, SyntaxFault, SyntaxKind};
use std::alloc::Global;

/// How many things may be open at a token.
const MAX_LEVEL: usize = 200;

/// Takes one token. False: it does not fit.
fn feed(reader: &mut Reader, token: &Token) -> Result<bool, NoMemory>
    ensures { IfOk result (λ fits. Fed (feed reader.old.expected reader.old.trees (lexeme_of token.now)) fits (state_of reader.new)) }
{
    while let Some(symbol) = reader.expected.pop() {
        match turn(reader, symbol, token)? {
            Turn::Taken => return Ok(true),
            Turn::Refused => return Ok(false),
            _ => {}
        }
    }
    Ok(false)
}

/// Ends the text. False: more is expected.
fn finish(reader: &mut Reader) -> Result<bool, NoMemory>
    ensures { IfOk result (λ done. Finished (finish reader.old.expected reader.old.trees) done reader.new.trees) }
{
    while let Some(symbol) = reader.expected.pop() {
        match end_turn(reader, symbol)? {
            Turn::Gone => {}
            _ => return Ok(false),
        }
    }
    Ok(true)
}

/// Takes one token, or tells what is wrong with it.
fn judge(reader: &mut Reader, token: &Token) -> Result<Option<SyntaxKind>, NoMemory>
    ensures { IfOk result (λ found. Judged (judged (state_of reader.old) (lexeme_of token.now)) found (state_of reader.new)) }
{
    if let Some(kind) = outside(&reader.expected, &token.kind) {
        return Ok(Some(kind));
    }
    let strayed = stray(&reader.expected, &token.kind);
    if !feed(reader, token)? {
        return Ok(Some(SyntaxKind::Unexpected));
    }
    if reader.expected.level() > MAX_LEVEL {
        return Ok(Some(SyntaxKind::Nesting));
    }
    Ok(strayed)
}

/// Takes all tokens of a text that ends on the given line.
fn read(alloc: Global, tokens: &[Token], end_line: u32) -> Result<Reader, ParseError>
    ensures { Reads (reading end_line opening (lexemes_of tokens.now)) result }
{
    let mut reader = Reader::new(alloc)?;
    for token in tokens {
        if let Some(kind) = judge(&mut reader, token)? {
            return Err(ParseError::Fault(SyntaxFault {
                line: token.line,
                kind,
            }));
        }
    }
    if !finish(&mut reader)? {
        return Err(ParseError::Fault(SyntaxFault {
            line: end_line,
            kind: SyntaxKind::Unexpected,
        }));
    }
    Ok(reader)
}

/// The chunk that tokens spell within the bounds, or their first fault. A fault at the end of the text has `end_line`, from 1.
///
/// Which token a fault stands at is told by the laws of the grammar, `unexpected_is_first` and `bounds_where_viable`.
///
/// What is open nests by no native recursion, so the depth of a text takes no stack.
pub fn parse_tokens(alloc: Global, tokens: &[Token], end_line: u32) -> Result<Chunk, ParseError>
    // What is answered is a chunk of the tokens, and keeps the bounds.
    ensures found { IfOk result (λ chunk. ReadsAs tokens.now chunk) }
    // A chunk of the tokens that keeps the bounds is the answer.
    ensures only { (chunk : Chunk) → ReadsAs tokens.now chunk → Gives chunk result }
    // A fault that is answered is the first.
    ensures fault { (f : SyntaxFault) → result ≡ Err (ParseError.Fault f) → IsTokenFault end_line tokens.now f }
    // Where there is a fault, it is the answer.
    ensures refused { (f : SyntaxFault) → IsTokenFault end_line tokens.now f → Faults f result }
{
    match read(alloc, tokens, end_line) {
        Ok(mut reader) => Ok(Chunk {
            block: reader.trees.block(),
        }),
        Err(error) => Err(error),
    }
}
