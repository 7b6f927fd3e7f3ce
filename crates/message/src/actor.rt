ghost use Rattle.std.specs.Prelude.{◌≡◌, ◌↔◌, IsTrue, None, Some, IfOk, MatchOption, Contains};
ghost use Rattle.message.specs.Actors.{Fits};
ghost use Rattle.message.specs.declared.request.Next.TheVariants.{Idle};

use crate::request::{Held, Input, Next};
use crate::waiting::HeldList;
use sk_types::{Bytes, Handle, NoMemory, Session};
use std::alloc::Global;

/// A machine that is fed messages and answers, and asks requests: what a service is to the node.
/// After want of memory in `feed` it is spent, and none of its methods may be called.
pub trait Actor {
    ghost use Rattle.message.specs.Actors.{Way, IsLawful};

    /// What the states of the type mean.
    ghost Meaning: { Type 0 };

    ghost meaning: { Self → Meaning };

    /// What it does, over the meanings.
    ghost way: { Way Meaning };

    /// Holds of each state that can be reached.
    ghost sound: { Meaning → Type 0 };

    /// Goes on to the next request, or to idleness.
    fn feed(&mut self, input: Input) -> Result<Next, NoMemory>
        requires { Fits (way.next (meaning self.old)) input }
        ensures step { IfOk result (λ n. meaning self.new ≡ way.fed (meaning self.old) input) }
        ensures next { IfOk result (λ n. n ≡ way.next (meaning self.new)) };

    /// Hands out the held requests, in the order taken.
    fn held(&mut self) -> HeldList
        requires { way.next (meaning self.old) ≡ Idle }
        ensures { result ≡ way.held (meaning self.old) };

    /// Whether the request of this caller and session is held.
    fn holds(&self, source: Handle, session: Session) -> bool
        ensures { IsTrue result ↔ Contains (way.held (meaning self.now)) (record { source = source; session = session }) };

    /// The request whose answer is being sent.
    fn reply(&self) -> Option<Held>
        ensures { result ≡ way.reply (meaning self.now) };

    /// The laws that each service keeps.
    ghost lawful: { IsLawful way sound };
}

/// What makes the services of a run from their scripts.
pub trait Maker<A: Actor> {
    /// A new service of this script under this handle; none where there is no such script, or it does not read.
    fn make(&self, alloc: Global, name: &Bytes, handle: Handle) -> Result<Option<A>, NoMemory>
        ensures { IfOk result (λ made. MatchOption made (A.way.begins name.now handle ≡ None) (λ a. A.way.begins name.now handle ≡ Some (A.meaning a))) };
}
