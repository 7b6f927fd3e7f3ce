ghost use Rattle.std.specs.Prelude.{◌≡◌, IfOk};
ghost use Rattle.std.specs.Option.{option_map};
ghost use Rattle.launcher.specs.Orders.{command_of, handle_in, launch_of, remove_of, kill_of, order_by, order_of, alone};

use message::{Body, Datum};
use sk_types::{Bytes, Handle, NoMemory};
use std::alloc::Global;

/// The word that a message to the launcher begins with.
#[derive(Clone, Copy, Debug, PartialEq, Eq)]
pub enum Command {
    Launch,
    LaunchOk,
    Error,
    Remove,
    Kill,
    List,
}

/// What a message asks of the launcher.
#[derive(Drop)]
pub enum Order {
    /// A service of this script, with these arguments.
    Launch(Bytes, Body),
    /// The sender has started.
    LaunchOk,
    /// The sender's start has failed.
    Error,
    /// The service of this handle has ended, and whether it was killed.
    Remove(Handle, bool),
    /// The service of this handle is to end.
    Kill(Handle),
    /// The services that are listed.
    List,
    /// Nothing that the launcher knows.
    Other,
}

/// What a body asks.
pub fn order_of(alloc: Global, body: &Body) -> Result<Order, NoMemory>
    ensures { IfOk result (λ o. o ≡ order_of body.now) }
{
    match body.as_slice() {
        [Datum::Text(word), rest @ ..] => order_by(alloc, command_of(word.as_slice()), rest),
        _ => Ok(Order::Other),
    }
}

fn command_of(word: &[u8]) -> Option<Command>
    ensures { result ≡ command_of word.now }
{
    if word == b"LAUNCH".as_slice() {
        return Some(Command::Launch);
    }
    if word == b"LAUNCHOK".as_slice() {
        return Some(Command::LaunchOk);
    }
    if word == b"ERROR".as_slice() {
        return Some(Command::Error);
    }
    if word == b"REMOVE".as_slice() {
        return Some(Command::Remove);
    }
    if word == b"KILL".as_slice() {
        return Some(Command::Kill);
    }
    if word == b"LIST".as_slice() {
        return Some(Command::List);
    }
    None
}

fn order_by(alloc: Global, command: Option<Command>, rest: &[Datum]) -> Result<Order, NoMemory>
    ensures { IfOk result (λ o. o ≡ order_by command rest.now) }
{
    match command {
        Some(Command::Launch) => launch_of(alloc, rest),
        Some(Command::LaunchOk) => Ok(alone(Order::LaunchOk, rest)),
        Some(Command::Error) => Ok(alone(Order::Error, rest)),
        Some(Command::Remove) => Ok(remove_of(rest)),
        Some(Command::Kill) => Ok(kill_of(rest)),
        Some(Command::List) => Ok(alone(Order::List, rest)),
        None => Ok(Order::Other),
    }
}

fn launch_of(alloc: Global, rest: &[Datum]) -> Result<Order, NoMemory>
    ensures { IfOk result (λ o. o ≡ launch_of rest.now) }
{
    match rest {
        [Datum::Text(kind), Datum::Text(name), args @ ..] => {
            if kind.as_slice() != b"snlua".as_slice() {
                return Ok(Order::Other);
            }
            let args = copy_of(alloc, args)?;
            Ok(Order::Launch(name.copy(alloc)?, args))
        }
        _ => Ok(Order::Other),
    }
}

fn copy_of(alloc: Global, values: &[Datum]) -> Result<Body, NoMemory>
    ensures { IfOk result (λ b. b ≡ values.now) }
{
    let mut body = Body::new(alloc);
    for datum in values {
        body.push(datum.copy(alloc)?)?;
    }
    Ok(body)
}

fn alone(order: Order, rest: &[Datum]) -> Order
    ensures { result ≡ alone order rest.now }
{
    if rest.is_empty() {
        return order;
    }
    Order::Other
}

fn remove_of(rest: &[Datum]) -> Order
    ensures { result ≡ remove_of rest.now }
{
    match rest {
        [Datum::Int(number), Datum::Bool(killed)] => match handle_in(*number) {
            Some(handle) => Order::Remove(handle, *killed),
            None => Order::Other,
        },
        _ => Order::Other,
    }
}

fn kill_of(rest: &[Datum]) -> Order
    ensures { result ≡ kill_of rest.now }
{
    match rest {
        [Datum::Int(number)] => match handle_in(*number) {
            Some(handle) => Order::Kill(handle),
            None => Order::Other,
        },
        _ => Order::Other,
    }
}

/// The handle that an integer is.
fn handle_in(number: i64) -> Option<Handle>
    ensures { result ≡ handle_in number }
{
    match u32::try_from(number) {
        Ok(handle) => Some(Handle(handle)),
        Err(_) => None,
    }
}
