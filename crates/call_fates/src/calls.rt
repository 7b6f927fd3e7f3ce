ghost use Rattle.std.specs.Prelude.{◌≡◌, [], None, IsSome, OnOk, OnErr};
ghost use Rattle.std.specs.List.{sum_by};
ghost use Rattle.call_fates.specs.Calls.{one, all_of, asks, replies};
ghost use Rattle.call_fates.specs.Table.{state_at, Adds, Takes, Replaces, Sets, Becomes};
ghost use Rattle.call_fates.specs.declared.calls.Fate.TheVariants.{Waiting as WaitsThere, Void, OnItsWay};

use message::{Held, Message, Waiting};
use sk_types::{Handle, Kind, NoMemory, Session};
use std::alloc::Global;
use std::collections::BTreeMap;
use std::marker::Model;

/// What has become of a call.
#[derive(Clone, Copy, Debug, PartialEq, Eq)]
pub enum Fate {
    /// Its request stands in the callee's inbox.
    Waiting,
    /// The callee holds it.
    Held,
    /// The callee is sending its reply or has it among its bounces, or the reply stands in the caller's inbox.
    OnItsWay,
    /// The caller took its reply, a Response.
    Answered,
    /// The caller took its reply, an Error.
    Failed,
    /// Its reply found no receiver.
    Void,
}

/// A call's caller and session.
#[derive(Clone, Copy, Debug, PartialEq, Eq, PartialOrd, Ord)]
pub struct CallKey {
    pub caller: Handle,
    pub session: Session,
}

/// Whom a call went to, and what has become of it.
#[derive(Clone, Copy, Debug, PartialEq, Eq)]
pub struct CallState {
    pub callee: Handle,
    pub fate: Fate,
}

/// The calls of a run. Contracts see their list, by caller and session.
#[derive(Drop)]
pub struct Calls {
    calls: BTreeMap<CallKey, CallState>,
}

impl Model for Calls {
    ghost use Rattle.std.specs.Prelude.{List};
    ghost use Rattle.call_fates.specs.declared.calls.CallKey.{CallKey};
    ghost use Rattle.call_fates.specs.declared.calls.CallState.{CallState};

    ghost Value = { List (CallKey × CallState) };

    ghost view = { λ c. c.calls.entries };
}

impl Calls {
    /// No call was made yet.
    pub fn new(alloc: Global) -> Calls
        ensures { result ≡ [] }
    {
        Calls {
            calls: BTreeMap::new(alloc),
        }
    }

    /// What has become of the call.
    pub fn get(&self, key: CallKey) -> Option<CallState>
        ensures { result ≡ state_at self.now key }
    {
        match self.calls.get(&key) {
            Some(state) => Some(*state),
            None => None,
        }
    }

    /// A call that is not there yet: its request waits.
    pub fn add(&mut self, key: CallKey, callee: Handle) -> Result<(), NoMemory>
        requires { state_at self.old key ≡ None }
        ensures ok { OnOk result (Adds self.old key callee self.new) }
        ensures made { OnOk result (Replaces self.old key (record { callee = callee; fate = WaitsThere }) self.new) }
        ensures err { OnErr result (self.new ≡ self.old) }
    {
        let state = CallState {
            callee,
            fate: Fate::Waiting,
        };
        let Ok(_) = self.calls.insert(key, state) else {
            return Err(NoMemory);
        };
        Ok(())
    }

    /// Takes out what was just added.
    pub fn take_back(&mut self, key: CallKey)
        ensures { Takes self.old key self.new }
    {
        let _ = self.calls.remove(&key);
    }

    /// This becomes of the call, where it was made.
    fn set(&mut self, key: CallKey, fate: Fate)
        ensures { Sets self.old key fate self.new }
    {
        if let Some(state) = self.get(key) {
            self.replace(
                key,
                CallState {
                    callee: state.callee,
                    fate,
                },
            );
        }
    }

    /// The state of a call that is there.
    fn replace(&mut self, key: CallKey, state: CallState)
        requires { IsSome (state_at self.old key) }
        ensures { Replaces self.old key state self.new }
    {
        match self.calls.insert(key, state) {
            Ok(_) => {}
            Err(_) => unreachable!(),
        }
    }

    /// This becomes of the call whose request it is.
    #[tactic(auto, using(crate::proofs::Table::sets_becomes))]
    pub fn set_request(&mut self, request: Held, fate: Fate)
        ensures { Becomes fate (λ c. one c 0 request) self.old self.new }
    {
        self.set(
            CallKey {
                caller: request.source,
                session: request.session,
            },
            fate,
        );
    }

    /// This becomes of each call whose request is held.
    pub fn set_held(&mut self, held: &[Held], fate: Fate)
        ensures { Becomes fate (λ c. all_of c 0 held.now) self.old self.new }
    {
        for request in held {
            self.set_request(*request, fate);
        }
    }

    /// This becomes of the call whose reply the message is, in the inbox of the caller.
    #[tactic(auto, using(crate::proofs::Table::sets_replies, crate::proofs::Table::sets_none))]
    pub fn set_reply(&mut self, caller: Handle, message: &Message, fate: Fate)
        ensures { Becomes fate (λ c. replies c caller.0 message.now) self.old self.new }
    {
        if message.source.0 != 0 && matches!(message.kind, Kind::Response | Kind::Error) {
            self.set(
                CallKey {
                    caller,
                    session: message.session,
                },
                fate,
            );
        }
    }

    /// The replies among these messages find no receiver: their caller has ended.
    pub fn set_replies(&mut self, caller: Handle, messages: &Waiting)
        ensures { Becomes Void (λ c. sum_by (replies c caller.0) messages.now) self.old self.new }
    {
        for at in 0..messages.len() {
            match messages.get(at) {
                Some(message) => self.set_reply(caller, message, Fate::Void),
                None => unreachable!(),
            }
        }
    }

    /// This becomes of the call whose request the message is, if it is one.
    #[tactic(auto, using(crate::proofs::Table::sets_none))]
    pub fn set_asked(&mut self, message: &Message, fate: Fate)
        ensures { Becomes fate (λ c. asks c 0 message.now) self.old self.new }
    {
        if message.is_request() {
            self.set_request(message.held_of(), fate);
        }
    }

    /// The requests among these messages are bounced.
    pub fn set_bounced(&mut self, messages: &Waiting)
        ensures { Becomes OnItsWay (λ c. sum_by (asks c 0) messages.now) self.old self.new }
    {
        for at in 0..messages.len() {
            match messages.get(at) {
                Some(message) => self.set_asked(message, Fate::OnItsWay),
                None => unreachable!(),
            }
        }
    }
}
