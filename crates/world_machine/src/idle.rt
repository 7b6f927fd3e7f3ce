ghost use Rattle.std.specs.Prelude.{◌≡◌, length, None, Some, IfOk, IfNone, IfSome};
ghost use Rattle.message.specs.Inboxes.{take_first as take_lem, end as end_lem};
ghost use Rattle.message.specs.declared.record.What.TheVariants as did;
ghost use Rattle.world_machine.specs.Idling.{IsLineAhead, text_lem};

use logger::line;
use message::{Datum, InboxState, InboxStatus, Message, Waiting};
use sk_types::{Bytes, Handle, Kind, NoMemory};
use std::alloc::Global;
use std::mem;

/// A closing inbox is gone, and its messages are handed out.
pub fn close(alloc: Global, inbox: &mut InboxState) -> Option<Waiting>
    ensures none { IfNone result ((end_lem inbox.old.status inbox.old.waiting ≡ None) × (inbox.new ≡ inbox.old)) }
    ensures some { IfSome result (λ ms. end_lem inbox.old.status inbox.old.waiting ≡ Some (did.End ms, inbox.new)) }
{
    if matches!(inbox.status, InboxStatus::Closing) {
        inbox.status = InboxStatus::Gone;
        Some(mem::replace(&mut inbox.waiting, Waiting::new(alloc)))
    } else {
        None
    }
}

/// The first message of a live inbox.
pub fn take_first(inbox: &mut InboxState) -> Option<Message>
    ensures none { IfNone result ((take_lem inbox.old.status inbox.old.waiting ≡ None) × (inbox.new ≡ inbox.old)) }
    ensures some { IfSome result (λ m. take_lem inbox.old.status inbox.old.waiting ≡ Some (did.Take m (length inbox.new.waiting), inbox.new)) }
{
    if matches!(inbox.status, InboxStatus::Live) {
        inbox.waiting.take_first()
    } else {
        None
    }
}

/// The line that the logger, agent 1, writes as it takes the first message.
pub fn line_ahead(
    alloc: Global,
    agent: Handle,
    inbox: &InboxState,
) -> Result<Option<Bytes>, NoMemory>
    ensures { IfOk result (λ l. IsLineAhead agent inbox.now l) }
{
    if agent.0 != 1 {
        return Ok(None);
    }
    match inbox.waiting.get(0) {
        None => Ok(None),
        Some(message) => {
            if matches!(message.kind, Kind::Text) {
                let text = text_of(alloc, message)?;
                Ok(Some(line(alloc, message.source, &text)?))
            } else {
                Ok(None)
            }
        }
    }
}

/// The text of a message: its first datum, where that is a text.
fn text_of(alloc: Global, message: &Message) -> Result<Bytes, NoMemory>
    ensures { IfOk result (λ t. t ≡ text_lem message.now.body) }
{
    match message.body.as_slice() {
        [Datum::Text(text), ..] => text.copy(alloc),
        _ => Ok(Bytes::new(alloc)),
    }
}
