ghost use Rattle.std.specs.Prelude.{◌≡◌, true, false, IfOk};
ghost use Rattle.lua_machine.specs.Nests.{wants_of};
ghost use Rattle.lua_machine.specs.Wants.{wanted_of};

use crate::frame::{Frame, Wanted};
use sk_types::NoMemory;

/// A call that begins within a stretch, as long as it needs no frame of its own (as CallInfo in lstate.h): its slots are in the row, its
/// cells are those of its closure, and it has no `...` and no lists.
#[derive(Clone, Copy)]
pub struct CallInfo {
    pub function: u64,
    pub closure: u64,
    /// The operation that comes next, once it waits.
    pub at: usize,
    /// Where its slots begin in the row.
    pub base: usize,
    /// Whether it has waited for a call. If so, the first `count` values of the last one were to go to the slots from `to` on.
    pub has_called: bool,
    pub to: u16,
    pub count: u16,
}

impl CallInfo {
    /// A place for a call.
    pub const NONE: CallInfo = CallInfo {
        function: 0,
        closure: 0,
        at: 0,
        base: 0,
        has_called: false,
        to: 0,
        count: 0,
    };

    /// A call of a closure begins here.
    #[inline(always)]
    pub fn begin(&mut self, function: u64, closure: u64, base: usize)
        ensures { self.new ≡ record self.old { function = function; closure = closure; base = base; has_called = false } }
    {
        self.function = function;
        self.closure = closure;
        self.base = base;
        self.has_called = false;
    }

    /// It waits for a call, and will go on at this place.
    #[inline(always)]
    pub fn wait(&mut self, at: usize, to: u16, count: u16)
        ensures { self.new ≡ record self.old { at = at; has_called = true; to = to; count = count } }
    {
        self.at = at;
        self.has_called = true;
        self.to = to;
        self.count = count;
    }

    /// Where the values go that it waits for.
    pub fn wants(&self) -> Wanted
        ensures { wanted_of result ≡ wants_of self.now }
    {
        if self.has_called {
            Wanted::InSlots {
                to: u32::from(self.to),
                count: self.count,
            }
        } else {
            Wanted::OnTop
        }
    }

    /// Where its slots begin, as a frame says it. A row that is too long for that has no memory.
    pub fn first_slot(&self) -> Result<u32, NoMemory>
        ensures { IfOk result (λ base. base ≡ self.now.base) }
    {
        let Ok(base) = u32::try_from(self.base) else {
            return Err(NoMemory);
        };
        Ok(base)
    }
}

/// Where the cells of a body are: in its frame, or, where it has no frame of its own, with its closure.
#[derive(Clone, Copy)]
pub enum Owner<'a> {
    Frame(&'a Frame),
    Closure(u64),
}
