ghost use Rattle.std.specs.Prelude.{◌≡◌, [], ◌∷◌, ◌++◌, length, IfOk, OnOk, OnErr};

use crate::memory::NoMemory;
use crate::number::{Handle, Session};
use std::alloc::Global;
use std::marker::Model;

/// The timers that fell due at one tick, in the order of adding: whose each is, and the session that was asked for.
#[derive(Debug, Drop)]
pub struct Due {
    timers: Vec<(Handle, Session)>,
}

impl Model for Due {
    ghost use Rattle.std.specs.Prelude.{List};
    ghost use Rattle.sk_types.specs.declared.number.Handle.{Handle};
    ghost use Rattle.sk_types.specs.declared.number.Session.{Session};

    ghost Value = { List (Handle × Session) };

    ghost view = { λ d. d.timers.items };
}

impl Due {
    pub fn new(alloc: Global) -> Due
        ensures { result ≡ [] }
    {
        Due {
            timers: Vec::new(alloc),
        }
    }

    pub fn as_slice(&self) -> &[(Handle, Session)]
        ensures { result.now ≡ self.now }
    {
        self.timers.as_slice()
    }

    /// An equal list, on the allocator that is given.
    pub fn copy(&self, alloc: Global) -> Result<Due, NoMemory>
        ensures { IfOk result (λ d. d ≡ self.now) }
    {
        let timers = Vec::from_slice(alloc, self.timers.as_slice())?;
        Ok(Due { timers })
    }

    pub fn push(&mut self, handle: Handle, session: Session) -> Result<(), NoMemory>
        ensures ok { OnOk result (self.new ≡ self.old ++ (handle, session) ∷ []) }
        ensures err { OnErr result (self.new ≡ self.old) }
    {
        self.timers.push((handle, session))?;
        Ok(())
    }
}
