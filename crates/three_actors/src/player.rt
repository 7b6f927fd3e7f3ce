ghost use Rattle.std.specs.Prelude.{◌≡◌, ◌==◌, false, IfOk};
ghost use Rattle.message.specs.Actors.{Begins};
ghost use Rattle.three_actors.specs.Playing.{state_of, new_player, heard as heard_lem, told as told_lem, roused as roused_lem, noted as noted_lem, word_of, note_by, calls_now, next_of, text_by, call_by, reply_by};
ghost use Rattle.three_actors.specs.declared.player.Task.TheVariants as tasks;
ghost use Rattle.three_actors.specs.Plays.{player_way, player_sound};

use message::{
    Actor, Answer, Body, Datum, Dest, Held, HeldList, Input, Maker, Message, Next, Request,
};
use sk_types::{Bytes, Handle, Kind, NoMemory, Session};
use sqlite_items::Items;
use std::alloc::Global;

/// What a text rouses a player to.
#[derive(Clone, Copy, Debug, PartialEq, Eq)]
pub enum Role {
    /// It calls the echo, once.
    Caller,
    /// It rouses the caller, then the killer.
    Echo,
    /// It ends the echo, once the echo rouses it.
    Killer,
}

/// How the caller's call ended.
#[derive(Clone, Copy, Debug, PartialEq, Eq)]
pub enum Outcome {
    Answered,
    Failed,
}

/// What a player is about to do. Each answers every request that it takes.
#[derive(Clone, Copy, Debug, PartialEq, Eq)]
pub enum Task {
    Idle,
    /// It puts a text to the caller.
    Rouses,
    /// It puts a text to the killer.
    Alarms,
    /// It looks up the caller of this request.
    Seeks(Held),
    /// It puts the reply to this request.
    Sends(Held),
    /// It looks up the echo.
    Looks,
    /// It puts its call.
    Calls(Handle),
    /// It puts a text to the killer, which tells how its call ended: a line of the log, since the killer is agent 1.
    Notes(Outcome),
    /// The echo is to be listed no more.
    Retires,
    /// And its inbox is to close.
    Marks,
}

const KILLER: Handle = Handle(1);

const CALLER: Handle = Handle(2);

const ECHO: Handle = Handle(3);

/// One of the three. The killer has handle 1 and the caller 2, where skynet has its logger and its launcher; the echo has 3, as the
/// start script does.
#[derive(Drop)]
pub struct Player {
    alloc: Global,
    own: Handle,
    role: Role,
    called: bool,
    task: Task,
}

impl Player {
    /// A player that has this handle, has made no call and is about to do nothing.
    pub fn new(alloc: Global, own: Handle, role: Role) -> Player
        ensures state { state_of result ≡ new_player own role }
        ensures begins { (own.0 == 0) ≡ false → Begins player_way player_sound own (state_of result) }
    {
        Player {
            alloc,
            own,
            role,
            called: false,
            task: Task::Idle,
        }
    }
}

impl Actor for Player {
    ghost use Rattle.three_actors.specs.Playing.{State, state_of};
    ghost use Rattle.three_actors.specs.Plays.{player_way, player_sound, player_lawful};

    ghost Meaning = { State };

    ghost meaning = { state_of };

    ghost way = { player_way };

    ghost sound = { player_sound };

    ghost lawful = { player_lawful };

    fn feed(&mut self, input: Input) -> Result<Next, NoMemory> {
        let task = match input {
            Input::Message(message) => heard(self.role, self.called, &message),
            Input::Answer(answer) => told(self.task, &answer),
        };
        self.called = has_called(self.called, task);
        self.task = task;
        next(self.alloc, self.own, task)
    }

    fn held(&mut self) -> HeldList {
        Items::new(self.alloc)
    }

    fn holds(&self, source: Handle, session: Session) -> bool {
        let _ = source;
        let _ = session;
        false
    }

    fn reply(&self) -> Option<Held> {
        match self.task {
            Task::Seeks(request) => Some(request),
            Task::Sends(request) => Some(request),
            _ => None,
        }
    }
}

fn heard(role: Role, called: bool, message: &Message) -> Task
    ensures { result ≡ heard_lem role called message.now }
{
    if message.is_request() {
        return Task::Seeks(message.held_of());
    }
    match message.kind {
        Kind::Text => roused(role, called, message.source.0 == ECHO.0),
        Kind::Response => noted(role, Outcome::Answered),
        Kind::Error => noted(role, Outcome::Failed),
        Kind::Lua => Task::Idle,
    }
}

fn roused(role: Role, called: bool, by_echo: bool) -> Task
    ensures { result ≡ roused_lem role called by_echo }
{
    match role {
        Role::Echo => Task::Rouses,
        Role::Killer => { if by_echo { Task::Retires } else { Task::Idle } }
        Role::Caller => { if called { Task::Idle } else { Task::Looks } }
    }
}

fn noted(role: Role, outcome: Outcome) -> Task
    ensures { result ≡ noted_lem role outcome }
{
    match role {
        Role::Caller => Task::Notes(outcome),
        _ => Task::Idle,
    }
}

fn told(task: Task, answer: &Answer) -> Task
    ensures { result ≡ told_lem task answer.now }
{
    match task {
        Task::Rouses => Task::Alarms,
        Task::Seeks(request) => sought(request, answer),
        Task::Looks => looked(answer),
        Task::Retires => retired(answer),
        _ => Task::Idle,
    }
}

fn sought(request: Held, answer: &Answer) -> Task
    ensures { result ≡ told_lem (tasks.Seeks request) answer.now }
{
    match answer {
        Answer::Found(Some(_)) => Task::Sends(request),
        _ => Task::Idle,
    }
}

fn looked(answer: &Answer) -> Task
    ensures { result ≡ told_lem tasks.Looks answer.now }
{
    match answer {
        Answer::Found(Some(handle)) => Task::Calls(*handle),
        _ => Task::Idle,
    }
}

fn retired(answer: &Answer) -> Task
    ensures { result ≡ told_lem tasks.Retires answer.now }
{
    match answer {
        Answer::Flag(true) => Task::Marks,
        _ => Task::Idle,
    }
}

fn has_called(called: bool, task: Task) -> bool
    ensures { result ≡ calls_now called task }
{
    match task {
        Task::Calls(_) => true,
        _ => called,
    }
}

fn next(alloc: Global, own: Handle, task: Task) -> Result<Next, NoMemory>
    ensures { IfOk result (λ n. n ≡ next_of own task) }
{
    Ok(match task {
        Task::Idle => Next::Idle,
        Task::Rouses => Next::Ask(Request::Put(CALLER, text(alloc, own))),
        Task::Alarms => Next::Ask(Request::Put(KILLER, text(alloc, own))),
        Task::Seeks(request) => Next::Ask(Request::Look(Dest::Number(request.source.0))),
        Task::Sends(request) => Next::Ask(Request::Put(request.source, reply(alloc, own, request))),
        Task::Looks => Next::Ask(Request::Look(Dest::Number(ECHO.0))),
        Task::Calls(to) => Next::Ask(Request::Put(to, call(alloc, own))),
        Task::Notes(outcome) => Next::Ask(Request::Put(KILLER, note(alloc, own, outcome)?)),
        Task::Retires => Next::Ask(Request::Retire(ECHO)),
        Task::Marks => Next::Ask(Request::Mark(ECHO)),
    })
}

fn word(outcome: Outcome) -> &'static [u8]
    ensures { result.now ≡ word_of outcome }
{
    match outcome {
        Outcome::Answered => b"answered",
        Outcome::Failed => b"failed",
    }
}

fn note(alloc: Global, own: Handle, outcome: Outcome) -> Result<Message, NoMemory>
    ensures { IfOk result (λ m. m ≡ note_by own outcome) }
{
    let mut body = Body::new(alloc);
    body.push(Datum::Text(Bytes::from_slice(alloc, word(outcome))?))?;
    Ok(Message {
        source: own,
        session: Session(0),
        kind: Kind::Text,
        body,
    })
}

fn text(alloc: Global, own: Handle) -> Message
    ensures { result ≡ text_by own }
{
    Message {
        source: own,
        session: Session(0),
        kind: Kind::Text,
        body: Body::new(alloc),
    }
}

fn call(alloc: Global, own: Handle) -> Message
    ensures { result ≡ call_by own }
{
    Message {
        source: own,
        session: Session(1),
        kind: Kind::Lua,
        body: Body::new(alloc),
    }
}

fn reply(alloc: Global, own: Handle, request: Held) -> Message
    ensures { result ≡ reply_by own request }
{
    Message {
        source: own,
        session: request.session,
        kind: Kind::Response,
        body: Body::new(alloc),
    }
}

/// Each name but the empty one is an echo.
pub struct Players;

impl Maker<Player> for Players {
    fn make(
        &self,
        alloc: Global,
        name: &Bytes,
        handle: Handle,
    ) -> Result<Option<Player>, NoMemory> {
        if name.as_slice().is_empty() {
            return Ok(None);
        }
        if handle.0 == 0 {
            return Ok(None);
        }
        Ok(Some(Player::new(alloc, handle, Role::Echo)))
    }
}
