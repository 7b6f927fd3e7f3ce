ghost use Rattle.std.specs.Prelude.{◌≡◌, true, false, IfOk, IfErr, OnOk, OnErr};
ghost use Rattle.lua_code.specs.Valid.{IsValid};
ghost use Rattle.lua_steps.specs.Calls.{given};
ghost use Rattle.lua_steps.specs.Exec.{fresh};
ghost use Rattle.lua_machine.specs.Runs.{loaded, Runs, StuckIf, SpentIf};
ghost use Rattle.lua_machine.specs.Follows.{Opens, BeginsAnew, Follows, UnwaitedIf};
ghost use Rattle.lua_machine.specs.Views.{stops, ends};

use crate::frame::{Frame, Wanted};
use crate::stack::CallStack;
use crate::state::State;
use crate::stop::{GoError, Stop};
use lua_code::Code;
use lua_follow::law_code_follows;
use lua_heap::Heap;
use lua_meaning::law_step_determined;
use lua_value::{Value, Values};
use sk_types::{Bytes, NoMemory};
use std::alloc::Global;
use std::collections::VecDeque;
use std::marker::Model;

/// A machine with the code that it runs.
#[derive(Drop)]
pub struct Machine {
    code: Code,
    budget: u64,
    /// Whether it has ended or failed.
    spent: bool,
    state: State,
}

impl Model for Machine {
    ghost use Rattle.lua_code.specs.Valid.{IsValid};
    ghost use Rattle.lua_machine.specs.Runs.{Loaded};

    ghost Value = { Loaded };

    ghost view = { λ m. record { code = m.code; budget = m.budget; spent = m.spent; machine = m.state } };

    ghost invariant = { λ m. IsValid m.code };
}

/// The frame in which a thread begins: it calls this value.
fn fresh(alloc: Global, called: Value) -> Result<Frame, NoMemory>
    ensures { IfOk result (λ frame. frame ≡ fresh called) }
{
    let mut lists = VecDeque::new(alloc);
    lists.push_front(Values::one(alloc, called)?)?;
    Ok(Frame {
        function: 0,
        at: 0,
        base: 0,
        cells: Vec::new(alloc),
        ups: Vec::new(alloc),
        dots: Values::new(alloc),
        lists,
        wants: Wanted::OnTop,
    })
}

impl Machine {
    /// A machine for valid code, whose last function is the chunk, with its script's name, the ticks of a message and the units of its
    /// heap. Where the code serves a chunk, it waits for its arguments as the chunk does.
    pub fn new(
        alloc: Global,
        code: Code,
        name: Bytes,
        budget: u64,
        units: u64,
    ) -> Result<Machine, NoMemory>
        requires { IsValid code }
        ensures machine { IfOk result (λ m. m ≡ loaded code name budget units) }
        ensures opens { IfOk result (λ m. Opens name budget units m) }
    {
        law_code_follows();
        let chunk = code.functions().len().saturating_sub(1) as u64;
        let mut heap = Heap::new(alloc, units);
        let Ok(called) = heap.closure(chunk, &[]) else {
            return Err(NoMemory);
        };
        heap.start_counting();
        let state = State {
            alloc,
            name,
            heap,
            row: Vec::new(alloc),
            stack: CallStack::new(alloc, fresh(alloc, called)?)?,
            calls: Vec::new(alloc),
            left: budget,
        };
        Ok(Machine {
            code,
            budget,
            spent: false,
            state,
        })
    }

    /// The budget starts anew.
    pub fn begin(&mut self)
        ensures is { self.new ≡ record self.old { machine = record self.old.machine { left = self.old.budget } } }
        ensures waits { BeginsAnew self.old.code self.old.budget self.old.machine self.new.machine }
    {
        self.state.left = self.budget;
    }

    /// What the machine has made.
    pub fn heap(&self) -> &Heap
        ensures { result.now.shared ≡ self.now.machine.aside.heap }
    {
        &self.state.heap
    }

    /// Runs to the next stop. The values go to the thread, which waits for them: as the arguments of the chunk, or as the results of the
    /// host's call at which it stopped. Where it waited as a state of the source does, it stops as that state does, with the same values,
    /// ticks and units, and is never stuck. After an error and after each stop but a call of the host the machine is spent.
    pub fn go(&mut self, values: Values) -> Result<Stop, GoError>
        ensures stop { IfOk result (λ stop. Runs self.old.code (given self.old.machine values) (stops stop self.new.machine)) }
        ensures follows { IfOk result (λ stop. Follows self.old.code self.old.machine values stop self.new.machine) }
        ensures stuck { IfErr result (λ e. StuckIf e self.old.code (given self.old.machine values)) }
        ensures unwaited { IfErr result (λ e. UnwaitedIf e self.old.code self.old.machine) }
        ensures was_spent { IfErr result (λ e. SpentIf e self.old.spent) }
        ensures was_sound { OnOk result (self.old.spent ≡ false) }
        ensures ended { IfOk result (λ stop. self.new.spent ≡ ends stop) }
        ensures spent { OnErr result (self.new.spent ≡ true) }
        ensures code { self.new.code ≡ self.old.code }
        ensures budget { self.new.budget ≡ self.old.budget }
    {
        law_code_follows();
        law_step_determined();
        if self.spent {
            return Err(GoError::Spent);
        }
        self.spent = true;
        let stop = self.state.run(self.code.functions(), values)?;
        self.spent = stop.is_end();
        Ok(stop)
    }
}
