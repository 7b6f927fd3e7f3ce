use sk_ports::{Failed, Sink};
use std::io::{self, Write};

/// Standard output.
#[derive(Drop)]
pub struct Output<'r, R: Print> {
    rt: &'r R,
    faults: u64,
}

impl<'r, R: Print> Output<'r, R> {
    pub fn new(rt: &'r R) -> Output<'r, R> {
        Output { rt, faults: 0 }
    }
}

impl<'r, R: Print> Sink for Output<'r, R> {
    ghost use Rattle.std.specs.Prelude.{None};

    ghost written = { λ s. None };

    ghost faults = { λ s. s.faults };

    fn write(&mut self, piece: &[u8]) -> Result<usize, Failed> {
        match io::writer(self.rt).write(piece) {
            Ok(n) if n > 0 => Ok(n),
            _ => {
                self.faults = self.faults.saturating_add(1);
                Err(Failed)
            }
        }
    }
}

/// A file on disk. Where it cannot be opened its writes fail.
#[derive(Drop)]
pub struct FileSink<W: Write + Drop> {
    file: Option<W>,
    faults: u64,
}

impl<W: Write + Drop> FileSink<W> {
    /// A sink over an opened file, or over one that could not be opened.
    pub fn new(file: Option<W>) -> FileSink<W> {
        FileSink { file, faults: 0 }
    }
}

impl<W: Write + Drop> Sink for FileSink<W> {
    ghost use Rattle.std.specs.Prelude.{None};

    ghost written = { λ s. None };

    ghost faults = { λ s. s.faults };

    fn write(&mut self, piece: &[u8]) -> Result<usize, Failed> {
        let written = match &mut self.file {
            Some(file) => file.write(piece).unwrap_or(0),
            None => 0,
        };
        if written == 0 {
            self.faults = self.faults.saturating_add(1);
            return Err(Failed);
        }
        Ok(written)
    }
}
