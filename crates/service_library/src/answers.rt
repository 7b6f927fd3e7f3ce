ghost use Rattle.std.specs.Prelude.{◌≡◌, Some, IfOk, OnOk};
ghost use Rattle.service_library.specs.Rows.{Is, Steps, after_answer, after_reply};

use crate::library::Library;
use crate::words::{AfterReply, Doing, LibStep, Reason};
use message::{Answer, Body, Datum, Held, Request};
use service_exit::Exit;
use session_table::Token;
use sk_types::{Handle, Kind, NoMemory, Session};
use std::mem;

impl Library {
    /// What follows the answer to the request that was asked.
    pub(crate) fn answered(&mut self, answer: Answer) -> Result<LibStep, NoMemory>
        ensures { Steps result self.new (after_answer self.old self.old.doing answer) }
    {
        match mem::replace(&mut self.doing, Doing::Quiet) {
            Doing::Sending(body) => Ok(self.sending(body, answer)),
            Doing::Sent => self.sent(answer),
            Doing::Calling(session, body) => self.calling(session, body, answer),
            Doing::Called(session) => self.called(session, answer),
            Doing::Replying(held, kind, body, after) => {
                self.replying(held, kind, body, after, answer)
            }
            Doing::Replied(held, after) => self.replied(held, after, answer),
            Doing::Given => Ok(self.gives_none()),
            Doing::Sleeping(session, token) => self.sleeping(session, token, answer),
            Doing::Asking => self.asking(answer),
            Doing::Finding => self.finding(answer),
            Doing::Naming => self.naming(answer),
            Doing::Seeking => self.seeking(answer),
            Doing::Leaving(leave, marked) => self.leaves(leave, Some(&answer), marked),
            Doing::Told => self.next(),
            Doing::Quiet => Ok(self.rests()),
            Doing::Over => Ok(self.rests()),
        }
    }

    fn sending(&mut self, body: Body, answer: Answer) -> LibStep
        ensures { Is result self.new (after_answer self.old (Doing.Sending body) answer) }
    {
        match answer {
            Answer::Found(Some(handle)) => {
                let message = self.own_message(Session(0), Kind::Lua, body);
                self.asks(Request::Put(handle, message), Doing::Sent)
            }
            Answer::Found(None) => self.gives_none(),
            _ => self.rests(),
        }
    }

    fn sent(&mut self, answer: Answer) -> Result<LibStep, NoMemory>
        ensures { Steps result self.new (after_answer self.old Doing.Sent answer) }
    {
        match answer {
            Answer::Flag(true) => self.gives_one(Datum::Int(0)),
            Answer::Flag(false) => Ok(self.gives_none()),
            _ => Ok(self.rests()),
        }
    }

    fn calling(&mut self, session: Session, body: Body, answer: Answer) -> Result<LibStep, NoMemory>
        ensures { Steps result self.new (after_answer self.old (Doing.Calling session body) answer) }
    {
        match answer {
            Answer::Found(Some(handle)) => {
                let message = self.own_message(session, Kind::Lua, body);
                Ok(self.asks(Request::Put(handle, message), Doing::Called(session)))
            }
            Answer::Found(None) => self.raises(b"invalid destination"),
            _ => Ok(self.rests()),
        }
    }

    fn called(&mut self, session: Session, answer: Answer) -> Result<LibStep, NoMemory>
        ensures { Steps result self.new (after_answer self.old (Doing.Called session) answer) }
    {
        match answer {
            Answer::Flag(true) => self.calls(session),
            Answer::Flag(false) => self.raises(b"invalid destination"),
            _ => Ok(self.rests()),
        }
    }

    fn replying(
        &mut self,
        held: Held,
        kind: Kind,
        body: Body,
        after: AfterReply,
        answer: Answer,
    ) -> Result<LibStep, NoMemory>
        ensures { Steps result self.new (after_answer self.old (Doing.Replying held kind body after) answer) }
    {
        match answer {
            Answer::Found(Some(_)) => {
                let message = self.own_message(held.session, kind, body);
                Ok(self.asks(
                    Request::Put(held.source, message),
                    Doing::Replied(held, after),
                ))
            }
            Answer::Found(None) => self.after_reply(after, false),
            _ => Ok(self.rests()),
        }
    }

    fn replied(
        &mut self,
        held: Held,
        after: AfterReply,
        answer: Answer,
    ) -> Result<LibStep, NoMemory>
        ensures { Steps result self.new (after_answer self.old (Doing.Replied held after) answer) }
    {
        let _ = held;
        match answer {
            Answer::Flag(taken) => self.after_reply(after, taken),
            _ => Ok(self.rests()),
        }
    }

    fn after_reply(&mut self, after: AfterReply, taken: bool) -> Result<LibStep, NoMemory>
        ensures { Steps result self.new (after_reply self.old after taken) }
    {
        match after {
            AfterReply::GoOn => self.gives_one(Datum::Bool(taken)),
            AfterReply::Log(text) => self.logs(text, Doing::Told),
            AfterReply::Rest => self.next(),
        }
    }

    fn sleeping(
        &mut self,
        session: Session,
        token: Token,
        answer: Answer,
    ) -> Result<LibStep, NoMemory>
        ensures { Steps result self.new (after_answer self.old (Doing.Sleeping session token) answer) }
    {
        match answer {
            Answer::Flag(_) | Answer::Done => self.sleeps(session, token, Reason::Sleep),
            _ => Ok(self.rests()),
        }
    }

    fn asking(&mut self, answer: Answer) -> Result<LibStep, NoMemory>
        ensures { Steps result self.new (after_answer self.old Doing.Asking answer) }
    {
        match answer {
            Answer::Clock(now) => self.gives_one(Datum::Int(now.cast_signed())),
            _ => Ok(self.rests()),
        }
    }

    fn finding(&mut self, answer: Answer) -> Result<LibStep, NoMemory>
        ensures { Steps result self.new (after_answer self.old Doing.Finding answer) }
    {
        match answer {
            Answer::Found(Some(handle)) => self.gives_one(Datum::Int(i64::from(handle.0))),
            Answer::Found(None) => self.gives_one(Datum::Nil),
            _ => Ok(self.rests()),
        }
    }

    fn naming(&mut self, answer: Answer) -> Result<LibStep, NoMemory>
        ensures { Steps result self.new (after_answer self.old Doing.Naming answer) }
    {
        match answer {
            Answer::Flag(true) => Ok(self.gives_none()),
            Answer::Flag(false) => self.raises(b"name refused"),
            _ => Ok(self.rests()),
        }
    }

    fn seeking(&mut self, answer: Answer) -> Result<LibStep, NoMemory>
        ensures { Steps result self.new (after_answer self.old Doing.Seeking answer) }
    {
        match answer {
            Answer::Found(Some(handle)) => self.ends(Exit::Kill(handle)),
            Answer::Found(None) => Ok(self.gives_none()),
            _ => Ok(self.rests()),
        }
    }
}
