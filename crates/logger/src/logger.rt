ghost use Rattle.std.specs.Prelude.{◌≡◌, []};

use message::{Actor, Held, HeldList, Input, Next};
use sk_types::{Handle, NoMemory, Session};
use sqlite_items::Items;
use std::alloc::Global;
use std::marker::Model;
use std::mem;

/// The logger: it takes each message, holds each request, and asks nothing. Contracts see the requests that it holds.
#[derive(Drop)]
pub struct Logger {
    alloc: Global,
    held: HeldList,
}

impl Model for Logger {
    ghost use Rattle.std.specs.Prelude.{List};
    ghost use Rattle.message.specs.declared.request.Held.{Held};

    ghost Value = { List Held };

    ghost view = { λ l. l.held };
}

impl Logger {
    pub fn new(alloc: Global) -> Logger
        ensures { result ≡ [] }
    {
        Logger {
            alloc,
            held: Items::new(alloc),
        }
    }
}

impl Actor for Logger {
    ghost use Rattle.std.specs.Prelude.{List};
    ghost use Rattle.message.specs.declared.request.Held.{Held};
    ghost use Rattle.logger.specs.Logging.{logger_way, logger_sound, logger_lawful};

    ghost Meaning = { List Held };

    ghost meaning = { λ s. s };

    ghost way = { logger_way };

    ghost sound = { logger_sound };

    ghost lawful = { logger_lawful };

    fn feed(&mut self, input: Input) -> Result<Next, NoMemory> {
        match input {
            Input::Message(m) => {
                if m.is_request() {
                    self.held.push(m.held_of())?;
                }
                Ok(Next::Idle)
            }
            Input::Answer(_) => Ok(Next::Idle),
        }
    }

    fn held(&mut self) -> HeldList {
        mem::replace(&mut self.held, Items::new(self.alloc))
    }

    fn holds(&self, source: Handle, session: Session) -> bool {
        self.held.as_slice().contains(&Held { source, session })
    }

    fn reply(&self) -> Option<Held> {
        None
    }
}
