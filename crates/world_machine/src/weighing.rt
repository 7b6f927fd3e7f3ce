ghost use Rattle.std.specs.Prelude.{ℕ, ◌≡◌, length};
ghost use Rattle.message.specs.Data.{capped};
ghost use Rattle.message.specs.Texts.{text_of};
ghost use Rattle.message.specs.Worlds.{service_over};
ghost use Rattle.message.specs.declared.record.What.TheVariants as did;
ghost use Rattle.world_machine.specs.Foreseen.{weight_of, has_inbox, given_ahead as given_lem, asks_ahead as asks_lem, idle_ahead as idle_lem, bounce_ahead as bounce_lem, service_ahead as service_lem};

use crate::places::Places;
use crate::served::Served;
use message::{Actor, Datum, Ending, InboxState, InboxStatus, Message, Next, Request, Service};
use sk_types::{Handle, Kind};

/// The one next action of an agent, as the limits of a run see it.
#[derive(Clone, Copy, Debug, PartialEq, Eq)]
pub struct Ahead {
    /// Whether the clock goes on by a tick.
    pub tick: bool,
    /// What the action weighs in bytes, or `u64::MAX` where that is less: a Put its body, a Launch its arguments, the
    /// logger's Take its line, and any other nothing.
    pub weight: u64,
}

/// What a line has beside its text: brackets, eight digits, and the end of the line.
const LINE_FRAME: u64 = 13;

/// The weight of what the service does next, or none where it has no action. This is its inbox.
pub fn service_ahead<A: Actor + Drop>(
    places: &Places,
    agent: Handle,
    inbox: &InboxState,
    service: &Service<Served<A>>,
) -> Option<u64>
    ensures { result ≡ service_lem A.way (length places.now.inboxes.items) agent inbox.now (service_over A.meaning service.now) }
{
    match service {
        Service::Serving(served) => match served.next() {
            Next::Idle => idle_ahead(agent, inbox),
            Next::Ask(request) => asks_ahead(places, request),
        },
        Service::Leaving(ending) => bounce_ahead(places, ending),
    }
}

/// An idle service ends where its inbox is closing, and takes the first message of a live one.
fn idle_ahead(agent: Handle, inbox: &InboxState) -> Option<u64>
    ensures { result ≡ idle_lem agent inbox.now.status inbox.now.waiting }
{
    match inbox.status {
        InboxStatus::Closing => Some(0),
        InboxStatus::Gone => None,
        InboxStatus::Live => match inbox.waiting.get(0) {
            Some(message) => Some(take_weight(agent, message)),
            None => None,
        },
    }
}

/// The length of the line that the logger, agent 1, writes as it takes the message.
fn take_weight(agent: Handle, message: &Message) -> u64
    ensures { (left : ℕ) → result ≡ capped (weight_of agent (did.Take message.now left)) }
{
    if agent.0 != 1 {
        return 0;
    }
    if !matches!(message.kind, Kind::Text) {
        return 0;
    }
    text_len(message).saturating_add(LINE_FRAME)
}

/// The length of the text of a message.
fn text_len(message: &Message) -> u64
    ensures { result ≡ length (text_of message.now.body) }
{
    match message.body.as_slice() {
        [Datum::Text(text), ..] => text.len() as u64,
        _ => 0,
    }
}

/// A Put and a Mark wait until their handle is given; any other request can be done.
fn asks_ahead(places: &Places, request: &Request) -> Option<u64>
    ensures { result ≡ asks_lem (length places.now.inboxes.items) request.now }
{
    match request {
        Request::Put(to, message) => given_ahead(places, *to, message.body.weight()),
        Request::Mark(handle) => given_ahead(places, *handle, 0),
        Request::Launch(_, args) => Some(args.weight()),
        Request::Look(_) => Some(0),
        Request::Name(_, _) => Some(0),
        Request::Retire(_) => Some(0),
        Request::Later(_, _) => Some(0),
        Request::Now => Some(0),
    }
}

/// The weight, where the handle was given.
pub fn given_ahead(places: &Places, handle: Handle, weight: u64) -> Option<u64>
    ensures { result ≡ given_lem (length places.now.inboxes.items) handle weight }
{
    if places.is_given(handle) {
        Some(weight)
    } else {
        None
    }
}

/// A bounce has no body.
fn bounce_ahead(places: &Places, ending: &Ending) -> Option<u64>
    ensures { result ≡ bounce_lem (length places.now.inboxes.items) ending.now.found ending.now.bounces }
{
    match ending.bounces.next() {
        None => None,
        Some((caller, _)) => {
            if ending.found {
                given_ahead(places, caller, 0)
            } else {
                Some(0)
            }
        }
    }
}
