use crate::values::{text_of, values};
use message::{Dest, Message, Request};
use service_library::{LibStep, Resume};
use session_table::ThreadNo;
use sk_types::{Handle, Kind};
use std::alloc::{AllocError, Global};

/// What comes next.
pub fn of_step(alloc: Global, step: &LibStep) -> Result<String, AllocError> {
    match step {
        LibStep::Ask(request) => of_request(alloc, request),
        LibStep::Resume(thread, how) => of_resume(alloc, *thread, how),
        LibStep::Raise(text) => {
            let text = text_of(text);
            format!(in alloc; "raises \"{text}\"")
        }
        LibStep::Idle => String::from_str(alloc, "idle"),
    }
}

/// Which thread goes on, and how.
fn of_resume(alloc: Global, thread: ThreadNo, how: &Resume) -> Result<String, AllocError> {
    let ThreadNo(thread) = thread;
    match how {
        Resume::Begin(body) => {
            let values = values(alloc, body)?;
            format!(in alloc; "thread {thread} begins {values}")
        }
        Resume::Dispatch(source, session, body) => {
            let values = values(alloc, body)?;
            format!(in alloc;
                "thread {thread} dispatches {values} of service {}, session {}",
                source.0, session.0
            )
        }
        Resume::Values(body) => {
            let values = values(alloc, body)?;
            format!(in alloc; "thread {thread} goes on {values}")
        }
        Resume::Unpack(body) => {
            let values = values(alloc, body)?;
            format!(in alloc; "thread {thread} unpacks {values}")
        }
        Resume::Response(response) => {
            format!(in alloc; "thread {thread} gets response function {}", response.0)
        }
        Resume::Fail(text) => {
            let text = text_of(text);
            format!(in alloc; "thread {thread} raises \"{text}\"")
        }
    }
}

/// What is asked of the node.
pub fn of_request(alloc: Global, request: &Request) -> Result<String, AllocError> {
    match request {
        Request::Look(dest) => of_look(alloc, dest),
        Request::Put(to, message) => of_put(alloc, *to, message),
        Request::Launch(name, args) => {
            let name = text_of(name);
            let values = values(alloc, args)?;
            format!(in alloc; "Launch {name} {values}")
        }
        Request::Name(name, handle) => {
            let name = text_of(name);
            format!(in alloc; "Name {name} for {}", handle.0)
        }
        Request::Retire(handle) => format!(in alloc; "Retire {}", handle.0),
        Request::Mark(handle) => format!(in alloc; "Mark {}", handle.0),
        Request::Later(ticks, session) => {
            format!(in alloc; "Later {ticks}, session {}", session.0)
        }
        Request::Now => String::from_str(alloc, "Now"),
    }
}

fn of_look(alloc: Global, dest: &Dest) -> Result<String, AllocError> {
    match dest {
        Dest::Number(n) => format!(in alloc; "Look {n}"),
        Dest::Name(name) => {
            let name = text_of(name);
            format!(in alloc; "Look {name}")
        }
    }
}

fn of_put(alloc: Global, to: Handle, message: &Message) -> Result<String, AllocError> {
    let kind = match message.kind {
        Kind::Text => "Text",
        Kind::Response => "Response",
        Kind::Error => "Error",
        Kind::Lua => "Lua",
    };
    let values = values(alloc, &message.body)?;
    format!(in alloc;
        "Put {} {kind} {values} of service {}, session {}",
        to.0, message.source.0, message.session.0
    )
}
