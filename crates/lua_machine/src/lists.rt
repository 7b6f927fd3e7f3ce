ghost use Rattle.std.specs.Prelude.{◌≡◌, ◌+◌, ◌<◌, [], ◌∷◌, ◌++◌, IfOk};
ghost use Rattle.lua_value.specs.Lists.{value_at, adjusted};
ghost use Rattle.lua_steps.specs.Machine as steps;
ghost use Rattle.lua_steps.specs.Moves.{next, slot, gives, on_list, with_lists, with_slots};
ghost use Rattle.lua_machine.specs.Views.{says};

use crate::state::State;
use crate::stop::Went;
use lua_value::Values;
use sk_types::NoMemory;

impl State {
    /// A new list begins on top of the lists.
    pub fn begin(&mut self) -> Result<Went, NoMemory>
        requires { self.old.top.at < usize.MAX }
        ensures { IfOk result (λ went. next (with_lists ([] ∷ self.old.top.lists) self.old) ≡ says went self.new) }
    {
        let top = self.stack.top_mut();
        top.lists.push_front(Values::new(self.alloc))?;
        self.goes_on();
        Ok(Went::On)
    }

    /// The value of a slot goes last into the list on top.
    pub fn push(&mut self, from: u16) -> Result<Went, NoMemory>
        requires { self.old.top.at < usize.MAX }
        ensures { IfOk result (λ went. on_list self.old.top.lists (λ l ls. next (with_lists ((l ++ slot self.old from ∷ []) ∷ ls) self.old)) ≡ says went self.new) }
    {
        let value = self.slot(from);
        let top = self.stack.top_mut();
        let Some(mut list) = top.lists.pop_front() else {
            return Ok(Went::Stuck);
        };
        list.push(value)?;
        let top = self.stack.top_mut();
        top.lists.push_front(list)?;
        self.goes_on();
        Ok(Went::On)
    }

    /// The list on top goes last into the one below it.
    pub fn append(&mut self) -> Result<Went, NoMemory>
        requires { self.old.top.at < usize.MAX }
        ensures { IfOk result (λ went. on_list self.old.top.lists (λ vs ls. on_list ls (λ us rest. next (with_lists ((us ++ vs) ∷ rest) self.old))) ≡ says went self.new) }
    {
        let top = self.stack.top_mut();
        let Some(last) = top.lists.pop_front() else {
            return Ok(Went::Stuck);
        };
        let top = self.stack.top_mut();
        let Some(mut list) = top.lists.pop_front() else {
            return Ok(Went::Stuck);
        };
        list.push_slice(last.as_slice())?;
        let top = self.stack.top_mut();
        top.lists.push_front(list)?;
        self.goes_on();
        Ok(Went::On)
    }

    /// All further arguments stand in a list on top.
    pub fn dots(&mut self) -> Result<Went, NoMemory>
        requires { self.old.top.at < usize.MAX }
        ensures { IfOk result (λ went. next (with_lists (self.old.top.dots ∷ self.old.top.lists) self.old) ≡ says went self.new) }
    {
        let top = self.stack.top();
        let list = Values::from_slice(self.alloc, top.dots.as_slice())?;
        let top = self.stack.top_mut();
        top.lists.push_front(list)?;
        self.goes_on();
        Ok(Went::On)
    }

    /// The first further arguments go to slots.
    pub fn dots_to(&mut self, to: u16, count: u16) -> Result<Went, NoMemory>
        requires { self.old.top.at < usize.MAX }
        ensures { IfOk result (λ went. next (with_slots to (adjusted count self.old.top.dots) self.old) ≡ says went self.new) }
    {
        let top = self.stack.top();
        let list = Values::from_slice(self.alloc, top.dots.as_slice())?;
        let place = self.base() + to as usize;
        self.write(place, count as usize, list.as_slice());
        self.goes_on();
        Ok(Went::On)
    }

    /// The first values of the list on top go to slots, and the list is gone.
    pub fn spread(&mut self, to: u16, count: u16) -> Went
        requires { self.old.top.at < usize.MAX }
        ensures { on_list self.old.top.lists (λ vs ls. next (with_slots to (adjusted count vs) (with_lists ls self.old))) ≡ says result self.new }
    {
        let top = self.stack.top_mut();
        let Some(list) = top.lists.pop_front() else {
            return Went::Stuck;
        };
        let place = self.base() + to as usize;
        self.write(place, count as usize, list.as_slice());
        self.goes_on();
        Went::On
    }

    /// A value of the list on top goes to a slot.
    pub fn item(&mut self, to: u16, index: u32) -> Went
        requires { self.old.top.at < usize.MAX }
        ensures { on_list self.old.top.lists (λ vs ls. gives to (value_at vs index) self.old) ≡ says result self.new }
    {
        let top = self.stack.top();
        let Some(list) = top.lists.front() else {
            return Went::Stuck;
        };
        let value = list.get(index as usize);
        self.gives(to, value);
        Went::On
    }
}
