ghost use Rattle.std.specs.Prelude.{◌≡◌, ◌∷◌, ◌++◌, [], IfOk, OnOk, codes};
ghost use Rattle.message.specs.declared.datum.Datum.TheVariants as datum;
ghost use Rattle.launcher.specs.Rows.{address, entry, kind_of, body_of, answer, line, launcher};

use crate::desk::Reply;
use crate::services::Services;
use logger::push_hex;
use message::{Body, Datum, Held, Message};
use sk_types::{Bytes, Handle, Kind, NoMemory, Session};
use std::alloc::Global;

/// The handle of the launcher.
pub const LAUNCHER: Handle = Handle(2);

/// What a caller is answered.
pub fn answer(
    alloc: Global,
    services: &Services,
    held: Held,
    reply: Reply,
) -> Result<Message, NoMemory>
    ensures { IfOk result (λ m. m ≡ answer services.now held reply) }
{
    let body = body_of(alloc, services, reply)?;
    Ok(Message {
        source: LAUNCHER,
        session: held.session,
        kind: kind_of(reply),
        body,
    })
}

fn kind_of(reply: Reply) -> Kind
    ensures { result ≡ kind_of reply }
{
    match reply {
        Reply::Failed => Kind::Error,
        Reply::Ended | Reply::Launched(_) | Reply::Killed(_) | Reply::Services => Kind::Response,
    }
}

fn body_of(alloc: Global, services: &Services, reply: Reply) -> Result<Body, NoMemory>
    ensures { IfOk result (λ b. b ≡ body_of services.now reply) }
{
    match reply {
        Reply::Failed | Reply::Ended => Ok(Body::new(alloc)),
        Reply::Launched(handle) => one(alloc, Datum::Int(i64::from(handle.0))),
        Reply::Killed(retired) => one(alloc, Datum::Bool(retired)),
        Reply::Services => {
            let pairs = services.entries(alloc)?;
            one(alloc, Datum::Table(pairs))
        }
    }
}

/// A body of one value.
fn one(alloc: Global, value: Datum) -> Result<Body, NoMemory>
    ensures { IfOk result (λ b. b ≡ value ∷ []) }
{
    let mut body = Body::new(alloc);
    body.push(value)?;
    Ok(body)
}

/// What a list says of a service.
pub fn entry(alloc: Global, handle: Handle, name: &Bytes) -> Result<(Datum, Datum), NoMemory>
    ensures { IfOk result (λ p. p ≡ entry (record { handle = handle; name = name.now })) }
{
    let address = address(alloc, handle)?;
    let mut text = Bytes::from_slice(alloc, b"snlua ")?;
    text.push_slice(name.as_slice())?;
    Ok((Datum::Text(address), Datum::Text(text)))
}

/// The text of a handle (`skynet.address`).
fn address(alloc: Global, handle: Handle) -> Result<Bytes, NoMemory>
    ensures { IfOk result (λ t. t ≡ address handle) }
{
    let mut text = Bytes::from_slice(alloc, b":")?;
    push_hex(&mut text, 8, handle.0)?;
    Ok(text)
}

/// The line of a launch that failed.
pub fn line(alloc: Global, name: &Bytes) -> Result<Message, NoMemory>
    ensures { IfOk result (λ m. m ≡ line name.now) }
{
    let mut text = Bytes::from_slice(alloc, b"launch ")?;
    text.push_slice(name.as_slice())?;
    text.push_slice(b" failed")?;
    let body = one(alloc, Datum::Text(text))?;
    Ok(Message {
        source: LAUNCHER,
        session: Session(0),
        kind: Kind::Text,
        body,
    })
}
