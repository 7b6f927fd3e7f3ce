ghost use Rattle.std.specs.Prelude.{◌≡◌};
ghost use Rattle.message.specs.Steps.{next_ops, bounce_ops, service_ops};
ghost use Rattle.message.specs.Worlds.{service_over};
ghost use Rattle.message.specs.declared.request.Next.TheVariants.{Ask};
ghost use Rattle.world_machine.specs.Phases.{phase_of};

use crate::served::Served;
use message::{Actor, Ending, Next, Request, Service};
use sk_types::Handle;

/// What an agent is about to do, as a scheduler sees it.
#[derive(Clone, Copy, Debug, PartialEq, Eq)]
pub enum Phase {
    /// It waits for a message or for its end.
    Idle,
    /// It has ended, and no bounce is left.
    Over,
    /// It puts a message or a mark into the inbox of this handle.
    Sends(Handle),
    /// It asks something of the registry or the clock; or it is the clock's agent and no timer is due.
    Elsewhere,
}

/// What a service that serves is about to do.
fn next_phase(next: &Next) -> Phase
    ensures { result ≡ phase_of (next_ops next.now) }
{
    match next {
        Next::Idle => Phase::Idle,
        Next::Ask(request) => request_phase(request),
    }
}

fn request_phase(request: &Request) -> Phase
    ensures { result ≡ phase_of (next_ops (Ask request.now)) }
{
    match request {
        Request::Put(to, _) => Phase::Sends(*to),
        Request::Mark(to) => Phase::Sends(*to),
        Request::Look(_) => Phase::Elsewhere,
        Request::Launch(_, _) => Phase::Elsewhere,
        Request::Name(_, _) => Phase::Elsewhere,
        Request::Retire(_) => Phase::Elsewhere,
        Request::Later(_, _) => Phase::Elsewhere,
        Request::Now => Phase::Elsewhere,
    }
}

/// What an ended service is about to do.
fn bounce_phase(ending: &Ending) -> Phase
    ensures { result ≡ phase_of (bounce_ops ending.now.own ending.now.found ending.now.bounces) }
{
    match ending.bounces.next() {
        None => Phase::Over,
        Some((caller, _)) => {
            if ending.found {
                Phase::Sends(caller)
            } else {
                Phase::Elsewhere
            }
        }
    }
}

/// What the service is about to do.
pub fn service_phase<A: Actor + Drop>(service: &Service<Served<A>>) -> Phase
    ensures { result ≡ phase_of (service_ops A.way (service_over A.meaning service.now)) }
{
    match service {
        Service::Serving(served) => next_phase(served.next()),
        Service::Leaving(ending) => bounce_phase(ending),
    }
}
