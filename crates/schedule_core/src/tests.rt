//! Two workers over three small services, in several orders. What the services did is done once more by one thread: both come to one
//! state and write the same text.
ghost use Rattle.std.specs.Prelude.{◌<◌, IfOk, IfSome};
ghost use Rattle.message.specs.Worlds.{over};
ghost use Rattle.call_fates.specs.Reached.{IsOpening};
ghost use Rattle.three_actors.specs.Playing.{state_of};
ghost use Rattle.three_actors.specs.Plays.{player_way, player_sound};

use crate::{Action, Core};
use call_fates::{CallKey, CallState, Fate};
use logger::line;
use message::{Datum, InboxStatus, Message};
use sk_types::{Bytes, Handle, Kind, NoMemory, Session};
use std::alloc::Global;
use std::test::Fail;
use three_actors::{Player, Players, Role};
use world_machine::{Phase, World};

const KILLER: u32 = 1;

const CALLER: u32 = 2;

const ECHO: u32 = 3;

fn opened(alloc: Global) -> Result<Option<World<Player>>, NoMemory>
    ensures { IfOk result (λ made. IfSome made (λ w. IsOpening player_way player_sound (over state_of w.world))) }
{
    let start = Bytes::from_slice(alloc, b"echo")?;
    let killer = Player::new(alloc, Handle(KILLER), Role::Killer);
    let caller = Player::new(alloc, Handle(CALLER), Role::Caller);
    World::opening(alloc, &Players, killer, caller, &start)
}

fn staffed(alloc: Global, workers: u32) -> Result<Option<Core<Player>>, NoMemory>
    requires { 0 < workers }
{
    match opened(alloc)? {
        Some(world) => Ok(Some(Core::opening(alloc, world, workers)?)),
        None => Ok(None),
    }
}

/// A step of a walk, and what comes of it.
#[derive(Clone, Copy)]
enum Walk {
    /// The worker has this service in hand, which does its next action.
    Acts(u32, u32),
    /// A step in which no service acts.
    Does(Action),
    /// A step that cannot be done.
    Cannot(Action),
}

/// The text that the logger takes next, where it is about to take one.
fn text_ahead(world: &World<Player>) -> Option<&Message> {
    if world.phase(Handle(KILLER)) != Some(Phase::Idle) {
        return None;
    }
    let message = world.inbox(Handle(KILLER))?.waiting.get(0)?;
    if matches!(message.kind, Kind::Text) {
        Some(message)
    } else {
        None
    }
}

fn written(alloc: Global, message: &Message) -> Result<Bytes, NoMemory> {
    match message.body.as_slice() {
        [Datum::Text(text), ..] => line(alloc, message.source, text),
        _ => line(alloc, message.source, &Bytes::new(alloc)),
    }
}

/// The line that the service's next action writes; empty where it writes none.
fn line_ahead(alloc: Global, world: &World<Player>, service: u32) -> Result<Bytes, NoMemory> {
    if service != KILLER {
        return Ok(Bytes::new(alloc));
    }
    match text_ahead(world) {
        Some(message) => written(alloc, message),
        None => Ok(Bytes::new(alloc)),
    }
}

fn acts(
    alloc: Global,
    core: &mut Core<Player>,
    text: &mut Bytes,
    worker: u32,
    service: u32,
) -> Result<bool, NoMemory> {
    let line = line_ahead(alloc, core.world(), service)?;
    text.push_slice(line.as_slice())?;
    core.step(&Players, Action::Act(worker))
}

/// Whether it comes as the walk says; what is written goes to the text.
fn goes(
    alloc: Global,
    core: &mut Core<Player>,
    text: &mut Bytes,
    walk: Walk,
) -> Result<bool, NoMemory> {
    match walk {
        Walk::Acts(worker, service) => acts(alloc, core, text, worker, service),
        Walk::Does(action) => core.step(&Players, action),
        Walk::Cannot(action) => Ok(!core.step(&Players, action)?),
    }
}

/// What workers write on their walk; none where something comes otherwise.
fn walked(
    alloc: Global,
    core: &mut Core<Player>,
    walks: &[Walk],
) -> Result<Option<Bytes>, NoMemory> {
    let mut text = Bytes::new(alloc);
    for walk in walks {
        if !goes(alloc, core, &mut text, *walk)? {
            return Ok(None);
        }
    }
    Ok(Some(text))
}

/// What one thread writes where the same services act in turn; none where one has no action.
fn done(
    alloc: Global,
    world: &mut World<Player>,
    walks: &[Walk],
) -> Result<Option<Bytes>, NoMemory> {
    let mut text = Bytes::new(alloc);
    for walk in walks {
        if let Walk::Acts(_, service) = walk {
            match world.act(&Players, Handle(*service)) {
                Ok(Some(line)) => text.push_slice(line.as_slice())?,
                Ok(None) => {}
                Err(_) => return Ok(None),
            }
        }
    }
    Ok(Some(text))
}

fn is_text(found: &Option<Bytes>, want: &[u8]) -> bool {
    match found {
        Some(text) => text.as_slice() == want,
        None => false,
    }
}

/// The fate of the caller's call.
fn fate(world: &World<Player>) -> Option<Fate> {
    let key = CallKey {
        caller: Handle(CALLER),
        session: Session(1),
    };
    match world.calls().get(key) {
        Some(CallState { fate, .. }) => Some(fate),
        None => None,
    }
}

/// The status of an inbox, and how many messages wait there.
fn mail(world: &World<Player>, handle: u32) -> Option<(InboxStatus, usize)> {
    match world.inbox(Handle(handle)) {
        Some(inbox) => Some((inbox.status, inbox.waiting.len())),
        None => None,
    }
}

/// Whether each agent has the same before it in both worlds.
fn is_same(one: &World<Player>, two: &World<Player>) -> bool {
    for handle in 0..4 {
        if mail(one, handle) != mail(two, handle) {
            return false;
        }
        if one.ahead(Handle(handle)) != two.ahead(Handle(handle)) {
            return false;
        }
        if one.phase(Handle(handle)) != two.phase(Handle(handle)) {
            return false;
        }
    }
    true
}

/// Two workers go this walk, and one thread does what the services did. Whether both write this text and end in one state, in which
/// the call has this fate.
fn plays(
    alloc: Global,
    walks: &[Walk],
    fate_is: Option<Fate>,
    text: &[u8],
) -> Result<bool, NoMemory> {
    let Some(mut core) = staffed(alloc, 2)? else {
        return Ok(false);
    };
    let Some(mut world) = opened(alloc)? else {
        return Ok(false);
    };
    if !is_text(&walked(alloc, &mut core, walks)?, text) {
        return Ok(false);
    }
    if !is_text(&done(alloc, &mut world, walks)?, text) {
        return Ok(false);
    }
    Ok(fate(core.world()) == fate_is && is_same(core.world(), &world))
}

#[test]
fn core_first_steps(rt: HostRuntime) -> Result<(), Fail> {
    let found = staffed(rt.alloc(), 1)?;
    assert!(rt; found.is_some());
    if let Some(mut core) = found {
        assert!(rt; core.step(&Players, Action::Fetch(0)) == Ok(true));
        assert!(rt; core.step(&Players, Action::Fetch(0)) == Ok(false));
    }
    Ok(())
}

/// The caller and the echo are in two hands while the call goes to and fro.
#[test]
fn a_call_is_answered_between_two_workers(rt: HostRuntime) -> Result<(), Fail> {
    let walks = [
        Walk::Does(Action::Fetch(0)),
        Walk::Cannot(Action::Act(0)),
        Walk::Does(Action::Park(0)),
        Walk::Does(Action::Fetch(0)),
        Walk::Does(Action::Fetch(1)),
        Walk::Does(Action::Park(0)),
        Walk::Acts(1, ECHO),
        Walk::Acts(1, ECHO),
        Walk::Does(Action::Fetch(0)),
        Walk::Acts(0, CALLER),
        Walk::Acts(1, ECHO),
        Walk::Acts(0, CALLER),
        Walk::Acts(0, CALLER),
        Walk::Does(Action::Park(1)),
        Walk::Acts(1, ECHO),
        Walk::Acts(1, ECHO),
        Walk::Acts(1, ECHO),
        Walk::Acts(0, CALLER),
        Walk::Acts(0, CALLER),
        Walk::Does(Action::Park(0)),
        Walk::Does(Action::Fetch(0)),
        Walk::Acts(0, KILLER),
        Walk::Acts(0, KILLER),
        Walk::Acts(0, KILLER),
        Walk::Cannot(Action::Park(1)),
        Walk::Acts(0, KILLER),
        Walk::Acts(1, ECHO),
        Walk::Does(Action::Park(1)),
        Walk::Does(Action::Park(0)),
        Walk::Cannot(Action::Fetch(0)),
        Walk::Cannot(Action::Fetch(1)),
        Walk::Cannot(Action::Park(0)),
        Walk::Cannot(Action::Park(1)),
        Walk::Cannot(Action::Clock),
    ];
    let text = b"[:00000003] \n[:00000002] answered\n";
    assert!(rt; plays(rt.alloc(), &walks, Some(Fate::Answered), text)?);
    Ok(())
}

/// The mark comes while the echo is about to answer, in another hand.
#[test]
fn a_marked_echo_still_answers(rt: HostRuntime) -> Result<(), Fail> {
    let walks = [
        Walk::Does(Action::Fetch(0)),
        Walk::Does(Action::Exchange(0)),
        Walk::Does(Action::Fetch(1)),
        Walk::Acts(1, ECHO),
        Walk::Acts(1, ECHO),
        Walk::Acts(1, ECHO),
        Walk::Acts(0, CALLER),
        Walk::Acts(0, CALLER),
        Walk::Acts(0, CALLER),
        Walk::Acts(1, ECHO),
        Walk::Does(Action::Exchange(0)),
        Walk::Acts(0, KILLER),
        Walk::Acts(0, KILLER),
        Walk::Acts(0, KILLER),
        Walk::Cannot(Action::Park(1)),
        Walk::Acts(1, ECHO),
        Walk::Acts(1, ECHO),
        Walk::Acts(1, ECHO),
        Walk::Does(Action::Park(1)),
        Walk::Does(Action::Exchange(0)),
        Walk::Acts(0, CALLER),
        Walk::Acts(0, CALLER),
        Walk::Does(Action::Park(0)),
        Walk::Does(Action::Fetch(0)),
        Walk::Acts(0, KILLER),
        Walk::Does(Action::Park(0)),
        Walk::Cannot(Action::Fetch(0)),
        Walk::Cannot(Action::Fetch(1)),
        Walk::Cannot(Action::Park(0)),
        Walk::Cannot(Action::Park(1)),
        Walk::Cannot(Action::Clock),
    ];
    let text = b"[:00000003] \n[:00000002] answered\n";
    assert!(rt; plays(rt.alloc(), &walks, Some(Fate::Answered), text)?);
    Ok(())
}

/// The mark comes while the echo is at home.
#[test]
fn a_kill_wakes_the_echo_at_home(rt: HostRuntime) -> Result<(), Fail> {
    let walks = [
        Walk::Does(Action::Fetch(0)),
        Walk::Does(Action::Park(0)),
        Walk::Does(Action::Fetch(0)),
        Walk::Does(Action::Park(0)),
        Walk::Does(Action::Fetch(0)),
        Walk::Acts(0, ECHO),
        Walk::Acts(0, ECHO),
        Walk::Acts(0, ECHO),
        Walk::Does(Action::Park(0)),
        Walk::Does(Action::Fetch(0)),
        Walk::Does(Action::Fetch(1)),
        Walk::Acts(1, KILLER),
        Walk::Acts(1, KILLER),
        Walk::Acts(1, KILLER),
        Walk::Acts(0, CALLER),
        Walk::Acts(0, CALLER),
        Walk::Does(Action::Park(0)),
        Walk::Does(Action::Park(1)),
        Walk::Does(Action::Fetch(1)),
        Walk::Acts(1, ECHO),
        Walk::Does(Action::Park(1)),
        Walk::Cannot(Action::Fetch(0)),
        Walk::Cannot(Action::Fetch(1)),
        Walk::Cannot(Action::Park(0)),
        Walk::Cannot(Action::Park(1)),
        Walk::Cannot(Action::Clock),
    ];
    let text = b"[:00000003] \n";
    assert!(rt; plays(rt.alloc(), &walks, None, text)?);
    Ok(())
}

/// The echo ends in one hand while its call waits.
#[test]
fn a_call_fails_where_the_echo_ends_first(rt: HostRuntime) -> Result<(), Fail> {
    let walks = [
        Walk::Does(Action::Fetch(0)),
        Walk::Does(Action::Exchange(0)),
        Walk::Does(Action::Fetch(1)),
        Walk::Acts(1, ECHO),
        Walk::Acts(1, ECHO),
        Walk::Acts(1, ECHO),
        Walk::Acts(0, CALLER),
        Walk::Acts(0, CALLER),
        Walk::Acts(0, CALLER),
        Walk::Does(Action::Exchange(0)),
        Walk::Acts(0, KILLER),
        Walk::Acts(0, KILLER),
        Walk::Acts(0, KILLER),
        Walk::Acts(1, ECHO),
        Walk::Cannot(Action::Exchange(1)),
        Walk::Acts(1, ECHO),
        Walk::Acts(1, ECHO),
        Walk::Does(Action::Park(1)),
        Walk::Does(Action::Exchange(0)),
        Walk::Acts(0, CALLER),
        Walk::Acts(0, CALLER),
        Walk::Does(Action::Park(0)),
        Walk::Does(Action::Fetch(0)),
        Walk::Acts(0, KILLER),
        Walk::Does(Action::Park(0)),
        Walk::Cannot(Action::Fetch(0)),
        Walk::Cannot(Action::Fetch(1)),
        Walk::Cannot(Action::Park(0)),
        Walk::Cannot(Action::Park(1)),
        Walk::Cannot(Action::Clock),
    ];
    let text = b"[:00000003] \n[:00000002] failed\n";
    assert!(rt; plays(rt.alloc(), &walks, Some(Fate::Failed), text)?);
    Ok(())
}
