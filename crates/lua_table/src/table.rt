ghost use Rattle.std.specs.Prelude.{◌≡◌, ◌≢◌, ℕ, ◌+◌, ◌<◌, [], List, Some, None, OnOk, OnErr, drop, length, slice_get};
ghost use Rattle.lua_table.specs.Pairs.{IsBorder, adds_nothing, first_set, next_of, set_pair, value_of, with_pair};

use indexmap::IndexMap;
use lua_value::Value;
use sk_types::NoMemory;
use std::alloc::Global;
use std::marker::Model;
use thiserror::Error;

/// A key that stands in no pair of the table.
#[derive(Clone, Copy, Debug, PartialEq, Eq, Error)]
#[error("no such key")]
pub struct NoKey;

/// A table. A pair whose value becomes nil keeps its place, so that a loop over the table may clear fields (manual, section 6.1, `next`).
#[derive(Drop)]
pub struct LuaTable {
    map: IndexMap<Value, Value>,
}

impl Model for LuaTable {
    ghost use Rattle.std.specs.Prelude.{List};
    ghost use Rattle.lua_value.specs.declared.value.Value.{Value as LuaValue};

    ghost Value = { List (LuaValue × LuaValue) };

    ghost view = { λ t. t.map.entries };
}

impl LuaTable {
    pub fn new(alloc: Global) -> LuaTable
        ensures { result ≡ [] }
    {
        LuaTable {
            map: IndexMap::new(alloc),
        }
    }

    /// The value at a key, or nil.
    pub fn get(&self, key: &Value) -> Value
        ensures { result ≡ value_of self.now key.now }
    {
        match self.map.get(key) {
            Some(value) => *value,
            None => Value::Nil,
        }
    }

    fn adds_nothing(&self, key: &Value, value: &Value) -> bool
        ensures { result ≡ adds_nothing self.now key.now value.now }
    {
        value.is_nil() && !self.map.contains_key(key)
    }

    /// A key that has a place keeps it, and a new one goes last; a new one with nil adds nothing.
    ///
    /// # Errors
    /// `NoMemory`, where the table stays as it was.
    pub fn set(&mut self, key: Value, value: Value) -> Result<(), NoMemory>
        requires { key ≢ Value.Nil }
        ensures ok { OnOk result (self.new ≡ with_pair self.old key value) }
        ensures err { OnErr result (self.new ≡ self.old) }
    {
        if self.adds_nothing(&key, &value) {
            return Ok(());
        }
        self.map.insert(key, value)?;
        Ok(())
    }

    /// The first pair after a key whose value is not nil; from nil on, the first of all.
    ///
    /// # Errors
    /// `NoKey` exactly where the key is not nil and stands in no pair.
    pub fn next(&self, key: &Value) -> Result<Option<(Value, Value)>, NoKey>
        ensures { result ≡ next_of self.now key.now }
    {
        if key.is_nil() {
            return Ok(self.first_set(0));
        }
        let len = self.map.len();
        match self.map.get_index_of(key) {
            Some(index) if index < len => Ok(self.first_set(index + 1)),
            _ => Err(NoKey),
        }
    }

    /// The pair at a place, where its value is not nil.
    fn set_at(&self, index: usize) -> Option<(Value, Value)>
        ensures { result ≡ set_pair (slice_get self.now index) }
    {
        let (key, value) = self.map.get_index(index)?;
        if value.is_nil() {
            return None;
        }
        Some((*key, *value))
    }

    /// The first pair from a place on whose value is not nil.
    fn first_set(&self, from: usize) -> Option<(Value, Value)>
        ensures { result ≡ first_set (drop from self.now) }
    {
        for index in from..self.map.len() {
            if let Some(found) = self.set_at(index) {
                return Some(found);
            }
        }
        None
    }

    /// The least border (manual, section 3.4.7): the least n from 0 on where the value at n + 1 is nil.
    pub fn border(&self) -> i64
        ensures { IsBorder self.now result }
    {
        let len = self.map.len();
        for n in 0..len {
            let key = Value::Int(n as i64 + 1);
            if self.get(&key).is_nil() {
                return n as i64;
            }
        }
        len as i64
    }
}
