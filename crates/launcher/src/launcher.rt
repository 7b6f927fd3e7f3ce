ghost use Rattle.std.specs.Prelude.{◌≡◌, ◌++◌, IfOk, OnOk, None, find};
ghost use Rattle.message.specs.Actors.{Begins};
ghost use Rattle.launcher.specs.Rows.{Desk, opened, fed, next_of, heard, heard_order, taken, role_of, serves, settles, answers, killed, told, launched, after_reply, unlisted, reply_of_removal, launcher as launcher_lem};
ghost use Rattle.launcher.specs.declared.desk.Doing.TheVariants as doing;
ghost use Rattle.launcher.specs.Laws.{launcher_way, launcher_sound};

use crate::desk::{AfterReply, Doing, Reply, Role, Service, Taken};
use crate::order::{Order, order_of};
use crate::replies::{answer, line};
use crate::requests::Requests;
use crate::services::Services;
use message::{Actor, Answer, Body, Dest, Held, HeldList, Input, Message, Next, Request};
use sk_types::{Bytes, Handle, Kind, NoMemory, Session};
use std::alloc::Global;
use std::marker::Model;
use std::mem;

/// The launcher of a run.
#[derive(Drop)]
pub struct Launcher {
    alloc: Global,
    services: Services,
    requests: Requests,
    doing: Doing,
}

impl Model for Launcher {
    ghost use Rattle.launcher.specs.Rows.{Desk};
    ghost use Rattle.message.specs.contracts.datum.Datum as datum_contract;
    ghost use Rattle.std.specs.Coded.{codes};

    ghost Value = { Desk };

    ghost coded = { Prim.hlevel (codes, datum_contract.the_row.coded) };

    ghost view = { λ l. record { services = l.services; requests = l.requests; doing = l.doing } };
}

impl Launcher {
    /// A launcher that lists the start service, which has this script.
    pub fn new(alloc: Global, start: &Bytes) -> Result<Launcher, NoMemory>
        ensures opened { IfOk result (λ l. l ≡ opened start.now) }
        ensures begins { IfOk result (λ l. Begins launcher_way launcher_sound launcher_lem l) }
    {
        let mut services = Services::new(alloc);
        services.push(Service {
            handle: Handle(3),
            name: start.copy(alloc)?,
        })?;
        Ok(Launcher {
            alloc,
            services,
            requests: Requests::new(alloc),
            doing: Doing::Quiet,
        })
    }

    /// Goes on after any input, also one that does not fit.
    pub(crate) fn goes_on(&mut self, input: Input) -> Result<Next, NoMemory>
        ensures state { OnOk result (self.new ≡ fed self.old input) }
        ensures next { IfOk result (λ n. n ≡ next_of self.new self.new.doing) }
    {
        match input {
            Input::Message(message) => self.hears(&message)?,
            Input::Answer(answer) => self.hears_answer(answer)?,
        }
        self.next()
    }

    /// A message is taken.
    fn hears(&mut self, message: &Message) -> Result<(), NoMemory>
        ensures { OnOk result (self.new ≡ heard self.old message.now) }
    {
        if !matches!(message.kind, Kind::Lua) {
            self.doing = Doing::Quiet;
            return Ok(());
        }
        let order = order_of(self.alloc, &message.body)?;
        self.hears_order(message, order)?;
        Ok(())
    }

    fn hears_order(&mut self, message: &Message, order: Order) -> Result<(), NoMemory>
        ensures { OnOk result (self.new ≡ heard_order self.old message.now order) }
    {
        self.takes(message, role_of(&order))?;
        self.serves(message.source, order);
        Ok(())
    }

    /// A request is held from now on.
    fn takes(&mut self, message: &Message, role: Role) -> Result<(), NoMemory>
        ensures { OnOk result (self.new ≡ taken self.old message.now role) }
    {
        if message.is_request() {
            self.requests.push(Taken {
                role,
                held: message.held_of(),
            })?;
        }
        Ok(())
    }

    fn serves(&mut self, source: Handle, order: Order)
        ensures { self.new ≡ serves self.old source order }
    {
        match order {
            Order::Launch(name, args) => self.doing = Doing::Launching(name, args),
            Order::LaunchOk => self.settles(source, Reply::Launched(source)),
            Order::Error => self.forgets(source, Reply::Failed),
            Order::Remove(handle, killed) => self.forgets(handle, reply_of_removal(killed)),
            Order::Kill(handle) => {
                self.unlists(handle);
                self.doing = Doing::Retiring(handle);
            }
            Order::List => self.answers(Reply::Services),
            Order::Other => self.answers(Reply::Failed),
        }
    }

    /// The launch of this handle is answered, where it is pending.
    fn settles(&mut self, handle: Handle, reply: Reply)
        ensures { self.new ≡ settles self.old handle reply }
    {
        match self.requests.take_pending(handle) {
            Some(caller) => self.doing = Doing::Seeking(caller, reply, AfterReply::Rest),
            None => self.doing = Doing::Quiet,
        }
    }

    /// The service is listed no more, and its launch is answered, where it is pending.
    fn forgets(&mut self, handle: Handle, reply: Reply)
        ensures { self.new ≡ settles (unlisted self.old handle) handle reply }
    {
        self.unlists(handle);
        self.settles(handle, reply);
    }

    fn unlists(&mut self, handle: Handle)
        ensures { self.new ≡ unlisted self.old handle }
    {
        self.services.remove(handle);
    }

    /// The message that is served is answered, where it wants an answer.
    fn answers(&mut self, reply: Reply)
        ensures { self.new ≡ answers self.old reply }
    {
        match self.requests.take_served() {
            Some(held) => self.doing = Doing::Seeking(held, reply, AfterReply::Rest),
            None => self.doing = Doing::Quiet,
        }
    }

    /// A service was killed: who waits for its launch is told first.
    fn killed(&mut self, handle: Handle, retired: bool)
        ensures { self.new ≡ killed self.old handle retired }
    {
        match self.requests.take_pending(handle) {
            Some(held) => {
                self.doing = Doing::Seeking(held, Reply::Failed, AfterReply::Report(retired));
            }
            None => self.answers(Reply::Killed(retired)),
        }
    }

    /// The answer to the request that was asked.
    fn hears_answer(&mut self, answer: Answer) -> Result<(), NoMemory>
        ensures { OnOk result (self.new ≡ told self.old self.old.doing answer) }
    {
        match mem::replace(&mut self.doing, Doing::Quiet) {
            Doing::Launching(name, args) => self.launching(name, args, answer)?,
            Doing::Telling(_name) => self.answers(Reply::Failed),
            Doing::Retiring(handle) => self.retiring(handle, answer),
            Doing::Marking(handle) => self.killed(handle, true),
            Doing::Seeking(held, reply, after) => self.seeking(held, reply, after, answer),
            Doing::Sending(_held, _reply, after) => self.after_reply(after),
            Doing::Quiet => {}
        }
        Ok(())
    }

    fn launching(&mut self, name: Bytes, args: Body, answer: Answer) -> Result<(), NoMemory>
        ensures { OnOk result (self.new ≡ told self.old (doing.Launching name args) answer) }
    {
        let _ = args;
        match answer {
            Answer::Found(Some(handle)) => self.launched(name, handle)?,
            Answer::Found(None) => self.doing = Doing::Telling(name),
            _ => self.doing = Doing::Quiet,
        }
        Ok(())
    }

    /// A new service is listed, and its launch is pending, where an answer is wanted.
    fn launched(&mut self, name: Bytes, handle: Handle) -> Result<(), NoMemory>
        ensures { OnOk result (self.new ≡ launched self.old name handle) }
    {
        self.services.push(Service { handle, name })?;
        self.requests.pends(handle)?;
        self.doing = Doing::Quiet;
        Ok(())
    }

    fn retiring(&mut self, handle: Handle, answer: Answer)
        ensures { self.new ≡ told self.old (doing.Retiring handle) answer }
    {
        match answer {
            Answer::Flag(true) => self.doing = Doing::Marking(handle),
            Answer::Flag(false) => self.killed(handle, false),
            _ => self.doing = Doing::Quiet,
        }
    }

    fn seeking(&mut self, held: Held, reply: Reply, after: AfterReply, answer: Answer)
        ensures { self.new ≡ told self.old (doing.Seeking held reply after) answer }
    {
        match answer {
            Answer::Found(Some(_)) => self.doing = Doing::Sending(held, reply, after),
            Answer::Found(None) => self.after_reply(after),
            _ => self.doing = Doing::Quiet,
        }
    }

    fn after_reply(&mut self, after: AfterReply)
        ensures { self.new ≡ after_reply self.old after }
    {
        match after {
            AfterReply::Rest => self.doing = Doing::Quiet,
            AfterReply::Report(retired) => self.answers(Reply::Killed(retired)),
        }
    }

    /// What it asks.
    fn next(&self) -> Result<Next, NoMemory>
        ensures { IfOk result (λ n. n ≡ next_of self.now self.now.doing) }
    {
        match &self.doing {
            Doing::Quiet => Ok(Next::Idle),
            Doing::Launching(name, args) => {
                let name = name.copy(self.alloc)?;
                Ok(Next::Ask(Request::Launch(name, args.copy(self.alloc)?)))
            }
            Doing::Telling(name) => {
                let line = line(self.alloc, name)?;
                Ok(Next::Ask(Request::Put(Handle(1), line)))
            }
            Doing::Retiring(handle) => Ok(Next::Ask(Request::Retire(*handle))),
            Doing::Marking(handle) => Ok(Next::Ask(Request::Mark(*handle))),
            Doing::Seeking(held, _, _) => {
                Ok(Next::Ask(Request::Look(Dest::Number(held.source.0))))
            }
            Doing::Sending(held, reply, _) => {
                let answer = answer(self.alloc, &self.services, *held, *reply)?;
                Ok(Next::Ask(Request::Put(held.source, answer)))
            }
        }
    }
}

impl Actor for Launcher {
    ghost use Rattle.launcher.specs.Rows.{Desk};
    ghost use Rattle.launcher.specs.Laws.{launcher_way, launcher_sound, launcher_lawful};

    ghost Meaning = { Desk };

    ghost meaning = { λ s. s };

    ghost way = { launcher_way };

    ghost sound = { launcher_sound };

    ghost lawful = { launcher_lawful };

    fn feed(&mut self, input: Input) -> Result<Next, NoMemory> {
        self.goes_on(input)
    }

    fn held(&mut self) -> HeldList {
        self.requests.hand_out()
    }

    fn holds(&self, source: Handle, session: Session) -> bool {
        self.requests.holds(source, session)
    }

    fn reply(&self) -> Option<Held> {
        match &self.doing {
            Doing::Seeking(held, _, _) => Some(*held),
            Doing::Sending(held, _, _) => Some(*held),
            _ => None,
        }
    }
}

/// A report of another service gets no answer.
fn role_of(order: &Order) -> Role
    ensures { result ≡ role_of order.now }
{
    match order {
        Order::LaunchOk | Order::Error | Order::Remove(_, _) => Role::Kept,
        Order::Launch(_, _) | Order::Kill(_) | Order::List | Order::Other => Role::Served,
    }
}

/// What the caller of a launch is told where its service has ended.
fn reply_of_removal(killed: bool) -> Reply
    ensures { result ≡ reply_of_removal killed }
{
    if killed { Reply::Failed } else { Reply::Ended }
}
