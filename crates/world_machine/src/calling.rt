ghost use Rattle.std.specs.Prelude.{◌≡◌, ◌+◌, OnOk, OnErr};
ghost use Rattle.std.specs.List.{sum_by};
ghost use Rattle.call_fates.specs.Calls.{one_of, all_of, asks};
ghost use Rattle.call_fates.specs.Table.{Becomes};
ghost use Rattle.call_fates.specs.declared.calls.Fate.TheVariants.{Void, OnItsWay};
ghost use Rattle.world_machine.specs.Calling.{call_in as call_lem, reply_in as reply_lem, reply_fate as fate_lem, is_refusal, IsAbsent, Opens, Withdraws, Settles, Receives, Buries};

use call_fates::{CallKey, Calls, Fate};
use message::{Answer, Held, Message, Request, Waiting};
use sk_types::{Handle, Kind, NoMemory};

/// A call that is about to be made.
#[derive(Clone, Copy, Debug, PartialEq, Eq)]
pub struct NewCall {
    pub key: CallKey,
    pub callee: Handle,
}

/// The call that the request makes where it is answered true: the Put of a message that wants an answer.
pub fn call_in(request: &Request) -> Option<NewCall>
    ensures { result ≡ call_lem request.now }
{
    match request {
        Request::Put(to, message) => {
            if message.is_request() {
                Some(NewCall {
                    key: CallKey {
                        caller: message.source,
                        session: message.session,
                    },
                    callee: *to,
                })
            } else {
                None
            }
        }
        _ => None,
    }
}

/// Of the reply that is being sent: what becomes void where the request is refused.
pub fn reply_in(sent: Option<Held>, request: &Request) -> Option<Held>
    ensures { result ≡ reply_lem sent request.now }
{
    match request {
        Request::Look(_) => sent,
        Request::Put(_, _) => sent,
        _ => None,
    }
}

/// Nobody was found, or it was not taken.
fn refuses(answer: &Answer) -> bool
    ensures { result ≡ is_refusal answer.now }
{
    match answer {
        Answer::Found(None) => true,
        Answer::Flag(taken) => !*taken,
        _ => false,
    }
}

/// Takes the room for the call, if any, and adds it.
pub fn open(calls: &mut Calls, call: Option<NewCall>) -> Result<(), NoMemory>
    requires { IsAbsent call calls.old }
    ensures ok { OnOk result (Opens call calls.old calls.new) }
    ensures err { OnErr result (calls.new ≡ calls.old) }
{
    match call {
        Some(call) => calls.add(call.key, call.callee),
        None => Ok(()),
    }
}

/// Takes the call back, if any.
pub fn withdraw(calls: &mut Calls, call: Option<NewCall>)
    ensures { Withdraws call calls.old calls.new }
{
    if let Some(call) = call {
        calls.take_back(call.key);
    }
}

/// A refused request makes no call, and a refused reply is void.
pub fn settle(calls: &mut Calls, call: Option<NewCall>, sent: Option<Held>, answer: &Answer)
    ensures { Settles call sent (is_refusal answer.now) calls.old calls.new }
{
    if refuses(answer) {
        withdraw(calls, call);
        void(calls, sent);
    }
}

#[tactic(auto, using(call_fates::proofs::Table::sets_none))]
fn void(calls: &mut Calls, sent: Option<Held>)
    ensures { Becomes Void (λ c. one_of c 0 sent) calls.old calls.new }
{
    if let Some(request) = sent {
        calls.set_request(request, Fate::Void);
    }
}

/// The reply that is being sent, if any, is on its way.
#[tactic(auto, using(call_fates::proofs::Table::sets_none))]
pub fn turn(calls: &mut Calls, sent: Option<Held>)
    ensures { Becomes OnItsWay (λ c. one_of c 0 sent) calls.old calls.new }
{
    if let Some(request) = sent {
        calls.set_request(request, Fate::OnItsWay);
    }
}

/// The service took the message: a request that it holds now, or the reply to a call of its own.
pub fn receive(calls: &mut Calls, own: Handle, message: &Message)
    ensures { Receives own message.now calls.old calls.new }
{
    calls.set_asked(message, Fate::Held);
    calls.set_reply(own, message, fate_by(message));
}

/// What a reply makes of its call.
fn fate_by(message: &Message) -> Fate
    ensures { result ≡ fate_lem message.now }
{
    if matches!(message.kind, Kind::Response) {
        Fate::Answered
    } else {
        Fate::Failed
    }
}

/// The service has ended: the replies that waited for it are void, and the requests that it held or that waited are
/// bounced.
pub fn bury(calls: &mut Calls, own: Handle, held: &[Held], waiting: &Waiting)
    ensures { Buries own held.now waiting.now calls.old calls.new }
{
    calls.set_replies(own, waiting);
    calls.set_held(held, Fate::OnItsWay);
    calls.set_bounced(waiting);
}
