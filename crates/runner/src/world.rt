ghost use Rattle.std.specs.Prelude.{◌≡◌, ◌++◌, [], true, List, ℕ, ◌∷◌, Some, is_some, MatchOption, IfOk, OnOk};
ghost use Rattle.runner.specs.World.{IsDrained, act, after, log_message, logger_acts, logs, opening, service_acts, takes};

use crate::logger::push_line;
use crate::message::{Body, Message};
use log_script::LogScript;
use sk_types::{Bytes, Handle, Journal, Kind, NoMemory, Session};
use std::alloc::Global;
use std::collections::VecDeque;
use std::marker::Model;

/// The logger's handle.
const LOGGER: Handle = Handle(1);

/// The start service's handle.
const START: Handle = Handle(3);

/// The start service: whether its chunk began, and the texts that it has yet to log.
#[derive(Drop)]
pub struct Service {
    begun: bool,
    texts: VecDeque<Bytes>,
}

/// The start service and the logger, each with the messages that wait in its mailbox.
#[derive(Drop)]
pub struct LogWorld {
    alloc: Global,
    service: Service,
    mailbox: VecDeque<Message>,
    logged: VecDeque<Message>,
}

impl Model for LogWorld {
    ghost use Rattle.runner.specs.World.{World};

    ghost Value = { World };

    ghost view = { λ w. record { begun = w.service.begun; texts = w.service.texts.items; mailbox = w.mailbox.items; logged = w.logged.items } };
}

impl LogWorld {
    /// The world in which the start service has its first message waiting.
    pub fn opening(alloc: Global, script: LogScript) -> Result<LogWorld, NoMemory>
        ensures { IfOk result (λ world. world ≡ opening script) }
    {
        let mut mailbox = VecDeque::new(alloc);
        mailbox.push_back(Message {
            source: Handle(0),
            session: Session(0),
            kind: Kind::Text,
            body: Body::new(alloc),
        })?;
        Ok(LogWorld {
            alloc,
            service: Service {
                begun: false,
                texts: script.into_texts(),
            },
            mailbox,
            logged: VecDeque::new(alloc),
        })
    }

    /// An agent that has an action, or none where no agent has.
    pub fn ready(&self) -> Option<Handle>
        ensures { MatchOption result (IsDrained self.now) (λ agent. is_some (act self.now agent) ≡ true) }
    {
        if self.service.begun && !self.service.texts.is_empty() {
            return Some(START);
        }
        if !self.mailbox.is_empty() {
            return Some(START);
        }
        if !self.logged.is_empty() {
            return Some(LOGGER);
        }
        None
    }

    /// Does the next action of an agent that has one, and adds the text that it writes.
    pub fn act(&mut self, agent: Handle, text: &mut Bytes) -> Result<(), NoMemory>
        requires { is_some (act self.old agent) ≡ true }
        ensures { OnOk result ((line : List ℕ) × (act self.old agent ≡ Some (self.new, line)) × (text.new ≡ text.old ++ line)) }
    {
        if agent == LOGGER {
            self.take_logged(text)
        } else {
            self.serve()
        }
    }

    /// The start service's next action.
    fn serve(&mut self) -> Result<(), NoMemory>
        requires { is_some (service_acts self.old) ≡ true }
        ensures { OnOk result (service_acts self.old ≡ Some (self.new, [])) }
    {
        if self.service.begun {
            self.log()
        } else {
            self.take();
            Ok(())
        }
    }

    /// The start service puts its next text to the logger, or with none left takes a message.
    fn log(&mut self) -> Result<(), NoMemory>
        requires { is_some (logs self.old self.old.texts) ≡ true }
        ensures { OnOk result (logs self.old self.old.texts ≡ Some (self.new, [])) }
    {
        match self.service.texts.pop_front() {
            Some(text) => self.put(text),
            None => {
                self.take();
                Ok(())
            }
        }
    }

    /// Puts a text into the logger's mailbox.
    fn put(&mut self, text: Bytes) -> Result<(), NoMemory>
        ensures { OnOk result (self.new ≡ record self.old { logged = self.old.logged ++ log_message text ∷ [] }) }
    {
        let body = Body::of_text(self.alloc, text)?;
        self.logged.push_back(Message {
            source: START,
            session: Session(0),
            kind: Kind::Text,
            body,
        })?;
        Ok(())
    }

    /// The start service takes its first message.
    fn take(&mut self)
        requires { is_some (takes self.old self.old.mailbox) ≡ true }
        ensures { takes self.old self.old.mailbox ≡ Some (self.new, []) }
    {
        let Some(_) = self.mailbox.pop_front() else {
            unreachable!()
        };
        self.service.begun = true;
    }

    /// The logger takes its first message.
    fn take_logged(&mut self, text: &mut Bytes) -> Result<(), NoMemory>
        requires { is_some (logger_acts self.old) ≡ true }
        ensures { OnOk result ((line : List ℕ) × (logger_acts self.old ≡ Some (self.new, line)) × (text.new ≡ text.old ++ line)) }
    {
        let Some(message) = self.logged.pop_front() else {
            unreachable!()
        };
        push_line(self.alloc, text, &message)
    }
}

/// Runs a world until no agent has an action; the journal gets the agents that acted, and the text what they wrote.
pub fn run(world: &mut LogWorld, journal: &mut Journal, text: &mut Bytes) -> Result<(), NoMemory>
    requires journal { journal.old.agents ≡ [] }
    requires text { text.old ≡ [] }
    ensures ran { OnOk result (after journal.new.agents world.old ≡ Some (world.new, text.new)) }
    ensures drained { OnOk result (IsDrained world.new) }
{
    while let Some(agent) = world.ready() {
        journal.push(agent)?;
        world.act(agent, text)?;
    }
    Ok(())
}
