use crate::outcome;
use lua_chunk::load;
use lua_machine::Machine;
use lua_value::{Value, Values};
use sk_types::{Bytes, NoMemory};
use std::alloc::Global;
use std::mem;

/// The ticks and units of a chunk, where its case says nothing else.
const TICKS: u64 = 10_000;

const UNITS: u64 = 100;

/// A chunk, what it may spend and what it is given, and the machine that runs it.
#[derive(Drop)]
pub struct Case {
    alloc: Global,
    source: Bytes,
    ticks: u64,
    units: u64,
    values: Values,
    machine: Option<Machine>,
}

impl Case {
    pub fn new(alloc: Global) -> Case {
        Case {
            alloc,
            source: Bytes::new(alloc),
            ticks: TICKS,
            units: UNITS,
            values: Values::new(alloc),
            machine: None,
        }
    }

    /// Ends the case of a chunk that has run.
    fn begin(&mut self) {
        if self.machine.is_some() {
            *self = Case::new(self.alloc);
        }
    }

    /// Adds a line of the chunk. Empty lines before its first are none of its.
    pub fn add(&mut self, line: &str) -> Result<(), NoMemory> {
        if self.machine.is_some() && line.is_empty() {
            return Ok(());
        }
        self.begin();
        if self.source.is_empty() {
            return self.source.push_slice(line.as_bytes());
        }
        self.source.push(b'\n')?;
        self.source.push_slice(line.as_bytes())
    }

    /// The chunk may spend `ticks N units N`; words of another form count for nothing.
    pub fn limit(&mut self, words: &str) {
        self.begin();
        let mut words = words.split_whitespace();
        for _ in 0..2 {
            let (name, number) = (words.next(), words.next());
            let Some(Ok(number)) = number.map(|word| word.parse::<u64>()) else {
                return;
            };
            match name {
                Some("ticks") => self.ticks = number,
                Some("units") => self.units = number,
                _ => return,
            }
        }
    }

    /// Adds what is given next: integers, and `host` for a function of the host.
    pub fn give(&mut self, words: &str) -> Result<(), NoMemory> {
        for word in words.split_whitespace() {
            let value = match word.parse::<i64>() {
                Ok(n) => Value::Int(n),
                Err(_) => Value::Native(5),
            };
            self.values.push(value)?;
        }
        Ok(())
    }

    /// The budget of the machine starts anew.
    pub fn renew(&mut self) {
        if let Some(machine) = &mut self.machine {
            machine.begin();
        }
    }

    /// Loads the chunk, where it has not run yet, and runs it on to its next stop: what becomes of it.
    pub fn run(&mut self) -> Result<String, NoMemory> {
        let values = mem::replace(&mut self.values, Values::new(self.alloc));
        let machine = match self.machine.take() {
            Some(machine) => machine,
            None => match load(
                self.alloc,
                self.source.as_slice(),
                Bytes::from_slice(self.alloc, b"m")?,
                self.ticks,
                self.units,
            ) {
                Ok(machine) => machine,
                Err(error) => {
                    *self = Case::new(self.alloc);
                    let text = outcome::of_error(self.alloc, error)?;
                    return Ok(text);
                }
            },
        };
        self.go(machine, values)
    }

    fn go(&mut self, mut machine: Machine, values: Values) -> Result<String, NoMemory> {
        let text = match machine.go(values) {
            Ok(stop) => outcome::of_stop(self.alloc, &machine, &stop)?,
            Err(_) => String::from_str(self.alloc, "failed")?,
        };
        self.machine = Some(machine);
        Ok(text)
    }
}
