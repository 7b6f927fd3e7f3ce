ghost use Rattle.std.specs.Prelude.{◌≡◌, IfOk};
ghost use Rattle.std.specs.Bool.{OnTrue};
ghost use Rattle.message.specs.Ends.{first};
ghost use Rattle.message.specs.Worlds.{service_over};
ghost use Rattle.call_fates.specs.Fates.{replying as replying_lem};
ghost use Rattle.call_fates.specs.Table.{Becomes};
ghost use Rattle.call_fates.specs.declared.calls.Fate.TheVariants.{OnItsWay};
ghost use Rattle.world_machine.specs.Calling.{sending, EndsCalls};
ghost use Rattle.world_machine.specs.Okay.{KeepsOk};
ghost use Rattle.world_machine.specs.Serving.{Stands, BounceStands, IsIdle, IsLeaving, IsNamed, MayGet, answered, ending_answered, taken, ended};

use crate::calling::{bury, turn};
use crate::served::{Served, Stage};
use call_fates::Calls;
use message::{
    Actor, Answer, Body, Bounces, Dest, Ending, Held, Input, Message, Next, Request, Service,
    Waiting,
};
use sk_types::{Handle, Kind, NoMemory};
use sqlite_items::Items;
use std::alloc::Global;
use std::mem;

/// A service that is no more.
pub fn away<S>(alloc: Global) -> Service<S>
    ensures { IsLeaving result }
{
    Service::Leaving(Ending {
        own: Handle(0),
        found: false,
        bounces: Bounces::new(Items::new(alloc), Waiting::new(alloc)),
    })
}

/// What the service does next. It keeps its request until that is answered, and so gives a copy.
pub fn stage<A: Actor + Drop>(
    alloc: Global,
    service: &Service<Served<A>>,
) -> Result<Stage, NoMemory>
    ensures { IfOk result (λ s. Stands A.way (service_over A.meaning service.now) s) }
{
    match service {
        Service::Serving(served) => match served.next() {
            Next::Idle => Ok(Stage::Idle),
            Next::Ask(request) => Ok(Stage::Asks(request.copy(alloc)?)),
        },
        Service::Leaving(ending) => Ok(bounce_stage(alloc, ending)),
    }
}

/// An ended service looks up the caller of its first bounce, and puts the bounce where there is one.
fn bounce_stage(alloc: Global, ending: &Ending) -> Stage
    ensures { BounceStands ending.now result }
{
    match ending.bounces.next() {
        None => Stage::Over,
        Some((caller, session)) => {
            if ending.found {
                Stage::Asks(Request::Put(
                    caller,
                    Message {
                        source: ending.own,
                        session,
                        kind: Kind::Error,
                        body: Body::new(alloc),
                    },
                ))
            } else {
                Stage::Asks(Request::Look(Dest::Number(caller.0)))
            }
        }
    }
}

/// The request whose reply the service is sending.
pub fn replying<A: Actor + Drop>(service: &Service<Served<A>>) -> Option<Held>
    ensures { result ≡ replying_lem A.way (service_over A.meaning service.now) }
{
    match service {
        Service::Serving(served) => served.reply(),
        Service::Leaving(ending) => first_bounce(&ending.bounces),
    }
}

fn first_bounce(bounces: &Bounces) -> Option<Held>
    ensures { result ≡ first bounces.now }
{
    match bounces.next() {
        Some((source, session)) => Some(Held { source, session }),
        None => None,
    }
}

/// The service goes on with the answer to its request, and a reply that it then sends is on its way. False: there was no
/// memory, and it is no more.
#[tactic(auto, using(call_fates::proofs::Table::sets_none))]
pub fn answer<A: Actor + Drop>(
    alloc: Global,
    service: &mut Service<Served<A>>,
    answer: Answer,
    calls: &mut Calls,
) -> bool
    requires { MayGet A.way (service_over A.meaning service.old) answer }
    ensures kept { KeepsOk A.way A.sound (service_over A.meaning service.old) (service_over A.meaning service.new) }
    ensures fed { OnTrue result (service_over A.meaning service.new ≡ answered A.way (service_over A.meaning service.old) answer) }
    ensures turned { OnTrue result (Becomes OnItsWay (λ c. sending A.way c (service_over A.meaning service.new)) calls.old calls.new) }
{
    match mem::replace(service, away(alloc)) {
        Service::Serving(served) => {
            match Served::fed(served.into_actor(), Input::Answer(answer)) {
                Ok(served) => {
                    turn(calls, served.reply());
                    *service = Service::Serving(served);
                    true
                }
                Err(NoMemory) => false,
            }
        }
        Service::Leaving(ending) => {
            *service = Service::Leaving(end_answered(ending, &answer));
            true
        }
    }
}

/// Where the caller was found its bounce is put next; any other answer drops the bounce.
fn end_answered(mut ending: Ending, answer: &Answer) -> Ending
    ensures { result ≡ ending_answered ending answer.now }
{
    if matches!(answer, Answer::Found(Some(_))) {
        ending.found = true;
    } else {
        ending.found = false;
        ending.bounces.drop_first();
    }
    ending
}

/// The idle service goes on with a message. False: there was no memory, and it is no more.
pub fn take<A: Actor + Drop>(
    alloc: Global,
    service: &mut Service<Served<A>>,
    message: Message,
    calls: &mut Calls,
) -> bool
    requires { IsIdle A.way (service_over A.meaning service.old) }
    ensures kept { KeepsOk A.way A.sound (service_over A.meaning service.old) (service_over A.meaning service.new) }
    ensures fed { OnTrue result (service_over A.meaning service.new ≡ taken A.way (service_over A.meaning service.old) message) }
    ensures turned { OnTrue result (Becomes OnItsWay (λ c. sending A.way c (service_over A.meaning service.new)) calls.old calls.new) }
{
    match mem::replace(service, away(alloc)) {
        Service::Serving(served) => {
            match Served::fed(served.into_actor(), Input::Message(message)) {
                Ok(served) => {
                    turn(calls, served.reply());
                    *service = Service::Serving(served);
                    true
                }
                Err(NoMemory) => false,
            }
        }
        Service::Leaving(_) => unreachable!(),
    }
}

/// The idle service ends: it bounces the requests that it held and those that waited.
pub fn end<A: Actor + Drop>(
    alloc: Global,
    service: &mut Service<Served<A>>,
    own: Handle,
    waiting: Waiting,
    calls: &mut Calls,
)
    requires idle { IsIdle A.way (service_over A.meaning service.old) }
    requires named { IsNamed A.way (service_over A.meaning service.old) own }
    ensures kept { KeepsOk A.way A.sound (service_over A.meaning service.old) (service_over A.meaning service.new) }
    ensures ended { service_over A.meaning service.new ≡ ended A.way (service_over A.meaning service.old) waiting }
    ensures calls { EndsCalls A.way (service_over A.meaning service.old) own waiting calls.old calls.new }
{
    match mem::replace(service, away(alloc)) {
        Service::Serving(served) => {
            let held = served.end();
            bury(calls, own, held.as_slice(), &waiting);
            *service = Service::Leaving(Ending {
                own,
                found: false,
                bounces: Bounces::new(held, waiting),
            });
        }
        Service::Leaving(_) => unreachable!(),
    }
}
