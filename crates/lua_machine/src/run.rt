ghost use Rattle.std.specs.Prelude.{◌≡◌, ◌<◌, false, slice_get, IfOk, IfErr, OnOk, OnSome};
ghost use Rattle.lua_code.specs.Valid.{IsValid};
ghost use Rattle.lua_steps.specs.Machine as steps;
ghost use Rattle.lua_steps.specs.Calls.{given};
ghost use Rattle.lua_steps.specs.Exec.{exec, op_at};
ghost use Rattle.lua_machine.specs.Runs.{Runs, StuckIf, SpentIf};
ghost use Rattle.lua_machine.specs.Views.{says, stops};

use crate::call_info::CallInfo;
use crate::state::State;
use crate::stop::{GoError, Stop, Went};
use lua_code::{Function, Op};
use lua_steps::law_measure_falls;
use lua_value::Values;
use sk_types::NoMemory;

/// The operation at a place of a function.
#[inline(always)]
pub fn fetch(code: &[Function], function: u64, at: usize) -> Option<Op>
    ensures value { result ≡ op_at code.now function at }
    ensures within { OnSome result (at < usize.MAX) }
{
    match code.get(function as usize) {
        Some(function) => op_in(function.ops(), at),
        None => None,
    }
}

#[inline(always)]
pub fn op_in(ops: &[Op], at: usize) -> Option<Op>
    ensures value { result ≡ slice_get ops.now at }
    ensures within { OnSome result (at < usize.MAX) }
{
    match ops.get(at) {
        Some(op) => Some(*op),
        None => None,
    }
}

impl State {
    /// The next operation.
    fn step(&mut self, code: &[Function]) -> Result<Went, NoMemory>
        ensures { IfOk result (λ went. exec code.now self.old ≡ says went self.new) }
    {
        let top = self.stack.top();
        match fetch(code, top.function, top.at) {
            Some(op) => self.perform(code, op),
            None => Ok(Went::Stuck),
        }
    }

    /// There come to be as many places for inner calls as there are frames, so that they grow only with how deep calls go.
    #[inline(always)]
    fn make_places(&mut self) -> Result<(), NoMemory>
        ensures { self.new ≡ self.old }
    {
        let count = self.stack.frame_count();
        if self.calls.len() < count {
            self.calls.resize(count, CallInfo::NONE)?;
        }
        Ok(())
    }

    /// Quick operations, calls and returns, up to an operation that is not quick, or that comes to a stop.
    #[inline(always)]
    fn hurry(&mut self, code: &[Function]) -> Result<(), NoMemory>
        requires { IsValid code.now }
        ensures { OnOk result (Runs code.now self.old (steps.On self.new)) }
    {
        let row = self.row.as_mut_slice();
        let calls = self.calls.as_mut_slice();
        let ran = self
            .stack
            .hurry(code, calls, row, &mut self.heap, self.left);
        self.left = ran.left;
        let calls = self.calls.as_slice();
        self.stack
            .settle_inner(self.alloc, &self.heap, calls, ran.inner)?;
        self.make_places()
    }

    /// Runs to the next stop. The values go to the frame that waits for them.
    pub fn run(&mut self, code: &[Function], values: Values) -> Result<Stop, GoError>
        requires { IsValid code.now }
        ensures stop { IfOk result (λ stop. Runs code.now (given self.old values) (stops stop self.new)) }
        ensures stuck { IfErr result (λ e. StuckIf e code.now (given self.old values)) }
        ensures not_spent { IfErr result (λ e. SpentIf e false) }
    {
        law_measure_falls();
        self.receive(values)?;
        'operations: loop {
            self.hurry(code)?;
            match self.step(code)? {
                Went::On => {}
                Went::Off(stop) => return Ok(stop),
                Went::Stuck => return Err(GoError::Stuck),
            }
        }
    }
}
