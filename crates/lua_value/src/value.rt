ghost use Rattle.std.specs.Prelude.{◌≡◌, ◌↔◌, IsTrue};
ghost use Rattle.lua_value.specs.Same.{same, is_nil, is_true};
ghost use Rattle.lua_value.specs.TypeName.{type_name};

/// A value of Lua. What has a place of its own in a heap stands here by its number there.
#[derive(Clone, Copy, Debug, PartialEq, Eq, Hash)]
pub enum Value {
    Nil,
    Bool(bool),
    Int(i64),
    /// A string; equal bytes have one number.
    Text(u64),
    Table(u64),
    /// A closure.
    Func(u64),
    /// A function of a library.
    Native(u16),
    Thread(u64),
    /// A packed message body, which Lua sees as a userdata.
    Packed(u64),
}

impl Value {
    /// Whether both are equal without metamethods (manual, section 3.4.4).
    pub fn same(&self, other: &Value) -> bool
        ensures value { result ≡ same self.now other.now }
        ensures equal { IsTrue result ↔ (self.now ≡ other.now) }
    {
        self == other
    }

    pub fn is_nil(&self) -> bool
        ensures { result ≡ is_nil self.now }
    {
        matches!(self, Value::Nil)
    }

    /// Whether a condition takes it as true: all but nil and false (manual, section 3.3.4).
    pub fn is_true(&self) -> bool
        ensures { result ≡ is_true self.now }
    {
        !matches!(self, Value::Nil | Value::Bool(false))
    }

    /// The name that `type` gives (manual, section 6.1).
    pub fn type_name(&self) -> &'static [u8]
        ensures { result.now ≡ type_name self.now }
    {
        match self {
            Value::Nil => b"nil",
            Value::Bool(_) => b"boolean",
            Value::Int(_) => b"number",
            Value::Text(_) => b"string",
            Value::Table(_) => b"table",
            Value::Func(_) => b"function",
            Value::Native(_) => b"function",
            Value::Thread(_) => b"thread",
            Value::Packed(_) => b"userdata",
        }
    }
}
