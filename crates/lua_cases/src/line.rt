/// A line of a table of cases. All but that of a chunk are comments of Lua, so a table is a text of Lua in its parts.
#[derive(Clone, Copy, Debug, PartialEq, Eq)]
pub enum Line<'a> {
    /// `== NAME`: a group of cases begins.
    Section(&'a str),
    /// `--: ticks N units N`: what the next chunk may spend.
    Limits(&'a str),
    /// `--< VALUES`: what the chunk, or the call at which it waits, is given.
    Given(&'a str),
    /// `--+`: the budget starts anew.
    Anew,
    /// `--> WORDS`: what becomes of it.
    Wanted(&'a str),
    /// A line of a chunk.
    Source(&'a str),
}

impl<'a> Line<'a> {
    pub fn read(text: &'a str) -> Line<'a> {
        if text == "--+" {
            return Line::Anew;
        }
        match text.split_once(' ') {
            Some(("==", rest)) => Line::Section(rest),
            Some(("--:", rest)) => Line::Limits(rest),
            Some(("--<", rest)) => Line::Given(rest),
            Some(("-->", rest)) => Line::Wanted(rest),
            _ => Line::Source(text),
        }
    }
}
