ghost use Rattle.std.specs.Prelude.{◌≡◌, [], ◌∷◌, ◌++◌, ◌↔◌, length, IsTrue, IfOk, OnOk, OnErr};
ghost use Rattle.lua_value.specs.Lists.{value_at};

use crate::value::Value;
use sk_types::NoMemory;
use std::alloc::Global;
use std::marker::Model;

/// A list of values, as arguments, results and `...` are (manual, section 3.4.12).
#[derive(Debug, Drop)]
pub struct Values {
    values: Vec<Value>,
}

impl Model for Values {
    ghost use Rattle.std.specs.Prelude.{List};
    ghost use Rattle.lua_value.specs.declared.value.Value.{Value as LuaValue};

    ghost Value = { List LuaValue };

    ghost view = { λ v. v.values.items };
}

impl Values {
    pub fn new(alloc: Global) -> Values
        ensures { result ≡ [] }
    {
        Values {
            values: Vec::new(alloc),
        }
    }

    pub fn from_slice(alloc: Global, slice: &[Value]) -> Result<Values, NoMemory>
        ensures { IfOk result (λ v. v ≡ slice.now) }
    {
        let values = Vec::from_slice(alloc, slice)?;
        Ok(Values { values })
    }

    /// One value.
    pub fn one(alloc: Global, value: Value) -> Result<Values, NoMemory>
        ensures { IfOk result (λ v. v ≡ value ∷ []) }
    {
        Values::from_slice(alloc, &[value])
    }

    pub fn as_slice(&self) -> &[Value]
        ensures { result.now ≡ self.now }
    {
        self.values.as_slice()
    }

    pub fn len(&self) -> usize
        ensures { result ≡ length self.now }
    {
        self.values.len()
    }

    pub fn is_empty(&self) -> bool
        ensures { IsTrue result ↔ (self.now ≡ []) }
    {
        self.values.is_empty()
    }

    /// The value at a place from 0 on, and nil past the end, as a list is filled (manual, section 3.3.3).
    pub fn get(&self, place: usize) -> Value
        ensures { result ≡ value_at self.now place }
    {
        match self.values.as_slice().get(place) {
            Some(value) => *value,
            None => Value::Nil,
        }
    }

    pub fn push(&mut self, value: Value) -> Result<(), NoMemory>
        ensures ok { OnOk result (self.new ≡ self.old ++ value ∷ []) }
        ensures err { OnErr result (self.new ≡ self.old) }
    {
        self.values.push(value)?;
        Ok(())
    }

    pub fn push_slice(&mut self, slice: &[Value]) -> Result<(), NoMemory>
        ensures ok { OnOk result (self.new ≡ self.old ++ slice.now) }
        ensures err { OnErr result (self.new ≡ self.old) }
    {
        self.values.extend_from_slice(slice)?;
        Ok(())
    }

    /// Drops all values; the memory stays for others.
    pub fn clear(&mut self)
        ensures { self.new ≡ [] }
    {
        self.values.clear();
    }
}
