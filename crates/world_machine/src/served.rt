ghost use Rattle.std.specs.Prelude.{◌≡◌, IfOk};
ghost use Rattle.message.specs.Actors.{Fits};
ghost use Rattle.message.specs.declared.request.Next.TheVariants.{Idle};

use message::{Actor, Held, HeldList, Input, Next, Request};
use sk_types::NoMemory;
use std::marker::Model;

/// What a service does next.
#[derive(Drop)]
pub enum Stage {
    /// It takes a message or ends, as its inbox has it.
    Idle,
    /// It has ended, and no bounce is left.
    Over,
    Asks(Request),
}

/// An actor with its next request. Contracts see it as the actor.
#[derive(Drop)]
pub struct Served<A: Actor + Drop> {
    actor: A,
    next: Next,
}

impl<A: Actor + Drop> Model for Served<A> {
    ghost use Rattle.std.specs.Prelude.{◌≡◌};

    ghost Value = { A };

    ghost coded = { A.code };

    ghost view = { λ s. s.actor };

    ghost invariant = { λ s. s.next ≡ A.way.next (A.meaning s.actor) };
}

impl<A: Actor + Drop> Served<A> {
    pub fn new(actor: A) -> Served<A>
        requires { A.way.next (A.meaning actor) ≡ Idle }
        ensures { result ≡ actor }
    {
        Served {
            actor,
            next: Next::Idle,
        }
    }

    pub fn next(&self) -> &Next
        ensures { result.now ≡ A.way.next (A.meaning self.now) }
    {
        &self.next
    }

    /// The request whose reply the actor is sending.
    pub fn reply(&self) -> Option<Held>
        ensures { result ≡ A.way.reply (A.meaning self.now) }
    {
        self.actor.reply()
    }

    pub fn into_actor(self) -> A
        ensures { result ≡ self }
    {
        let Served { actor, next: _ } = self;
        actor
    }

    /// The actor, fed.
    pub fn fed(mut actor: A, input: Input) -> Result<Served<A>, NoMemory>
        requires { Fits (A.way.next (A.meaning actor)) input }
        ensures { IfOk result (λ s. A.meaning s ≡ A.way.fed (A.meaning actor) input) }
    {
        let next = actor.feed(input)?;
        Ok(Served { actor, next })
    }

    /// Hands out the held requests of an idle actor.
    pub fn end(self) -> HeldList
        requires { A.way.next (A.meaning self) ≡ Idle }
        ensures { result ≡ A.way.held (A.meaning self) }
    {
        let Served { mut actor, next: _ } = self;
        actor.held()
    }
}
