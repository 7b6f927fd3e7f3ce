use crate::error::CaseError;
use message::{Body, Datum, Dest};
use session_table::{ResponseNo, ThreadNo, Token};
use sk_types::{Bytes, Handle, Session};
use std::alloc::Global;

/// The words of a line that are not read yet.
#[derive(Clone, Copy)]
pub struct Words<'a> {
    rest: &'a str,
}

impl<'a> Words<'a> {
    pub fn new(text: &'a str) -> Words<'a> {
        Words { rest: text }
    }

    /// The next word.
    pub fn word(&mut self) -> Result<&'a str, CaseError> {
        if self.rest.is_empty() {
            return Err(CaseError::Form);
        }
        let (word, rest) = match self.rest.split_once(' ') {
            Some(both) => both,
            None => (self.rest, ""),
        };
        self.rest = rest;
        Ok(word)
    }

    pub fn natural(&mut self) -> Result<u64, CaseError> {
        match self.word()?.parse::<u64>() {
            Ok(n) => Ok(n),
            Err(_) => Err(CaseError::Form),
        }
    }

    pub fn integer(&mut self) -> Result<i64, CaseError> {
        match self.word()?.parse::<i64>() {
            Ok(n) => Ok(n),
            Err(_) => Err(CaseError::Form),
        }
    }

    pub fn handle(&mut self) -> Result<Handle, CaseError> {
        match self.word()?.parse::<u32>() {
            Ok(n) => Ok(Handle(n)),
            Err(_) => Err(CaseError::Form),
        }
    }

    pub fn flag(&mut self) -> Result<bool, CaseError> {
        match self.word()? {
            "true" => Ok(true),
            "false" => Ok(false),
            _ => Err(CaseError::Form),
        }
    }

    pub fn thread(&mut self) -> Result<ThreadNo, CaseError> {
        Ok(ThreadNo(self.natural()?))
    }

    pub fn session(&mut self) -> Result<Session, CaseError> {
        Ok(Session(self.natural()?))
    }

    pub fn response(&mut self) -> Result<ResponseNo, CaseError> {
        Ok(ResponseNo(self.natural()?))
    }

    /// What a thread sleeps under, as an integer of Lua.
    pub fn token(&mut self) -> Result<Token, CaseError> {
        let number = self.integer()?;
        Ok(Token { kind: 0, number })
    }

    /// A handle, or a name that begins with a full stop.
    pub fn dest(&mut self, alloc: Global) -> Result<Dest, CaseError> {
        let word = self.word()?;
        if word.starts_with('.') {
            return Ok(Dest::Name(Bytes::from_slice(alloc, word.as_bytes())?));
        }
        match word.parse::<u32>() {
            Ok(n) => Ok(Dest::Number(n)),
            Err(_) => Err(CaseError::Form),
        }
    }

    /// A word as a text.
    pub fn name(&mut self, alloc: Global) -> Result<Bytes, CaseError> {
        Ok(Bytes::from_slice(alloc, self.word()?.as_bytes())?)
    }

    /// All that is left, as one text.
    pub fn text(&self, alloc: Global) -> Result<Bytes, CaseError> {
        Ok(Bytes::from_slice(alloc, self.rest.as_bytes())?)
    }

    /// All that is left, a value for each word.
    pub fn body(&self, alloc: Global) -> Result<Body, CaseError> {
        let mut body = Body::new(alloc);
        for word in self.rest.split_whitespace() {
            body.push(datum(alloc, word)?)?;
        }
        Ok(body)
    }
}

fn datum(alloc: Global, word: &str) -> Result<Datum, CaseError> {
    match word {
        "nil" => Ok(Datum::Nil),
        "true" => Ok(Datum::Bool(true)),
        "false" => Ok(Datum::Bool(false)),
        _ => match word.parse::<i64>() {
            Ok(n) => Ok(Datum::Int(n)),
            Err(_) => Ok(Datum::Text(Bytes::from_slice(alloc, word.as_bytes())?)),
        },
    }
}
