ghost use Rattle.std.specs.Prelude.{◌≡◌, ◌++◌};
ghost use Rattle.std.specs.Option.{option_map};
ghost use Rattle.message.specs.Messages.{requests};
ghost use Rattle.message.specs.Ends.{first, rest, caller_of, BeginsWithRequest};

use crate::waiting::{HeldList, Waiting};
use sk_types::{Handle, Session};
use std::marker::Model;

/// The requests that an ended service left: those that it held, in the order taken, then those that waited for it.
/// Contracts see their list. Both lists are kept as they were handed over, so it takes no memory.
#[derive(Drop)]
pub struct Bounces {
    held: HeldList,
    /// So many of the held ones are done with.
    done: usize,
    /// Its first message is a request.
    waiting: Waiting,
}

impl Model for Bounces {
    ghost use Rattle.std.specs.Prelude.{◌≡◌, ◌≤◌, ◌++◌, drop, length, List};
    ghost use Rattle.message.specs.declared.request.Held.{Held};
    ghost use Rattle.message.specs.Messages.{requests};
    ghost use Rattle.message.specs.Ends.{BeginsWithRequest};

    ghost Value = { List Held };

    ghost view = { λ b. drop b.done b.held ++ requests b.waiting };

    ghost invariant = { λ b. BeginsWithRequest b.waiting };
}

/// Drops the messages before the first request.
fn skip(waiting: &mut Waiting)
    ensures same { requests waiting.new ≡ requests waiting.old }
    ensures first { BeginsWithRequest waiting.new }
{
    while let Some(message) = waiting.get(0) {
        if message.is_request() {
            return;
        }
        let _ = waiting.take_first();
    }
}

impl Bounces {
    /// The bounces of a service that ended with these requests held and these messages waiting.
    pub fn new(held: HeldList, mut waiting: Waiting) -> Bounces
        ensures { result ≡ held ++ requests waiting }
    {
        skip(&mut waiting);
        Bounces {
            held,
            done: 0,
            waiting,
        }
    }

    /// The caller and the session of the first, or none where no bounce is left.
    pub fn next(&self) -> Option<(Handle, Session)>
        ensures { result ≡ option_map caller_of (first self.now) }
    {
        match self.held.get(self.done) {
            Some(held) => Some((held.source, held.session)),
            None => match self.waiting.get(0) {
                Some(message) => Some((message.source, message.session)),
                None => None,
            },
        }
    }

    /// Drops the first, where one is left.
    pub fn drop_first(&mut self)
        ensures { self.new ≡ rest self.old }
    {
        if self.done < self.held.len() {
            self.done += 1;
        } else {
            let _ = self.waiting.take_first();
            skip(&mut self.waiting);
        }
    }
}
