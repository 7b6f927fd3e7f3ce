use lua_model::Refusal;
use lua_value::Value;
use sk_types::Bytes;

/// What an operation on values answers.
#[derive(Drop)]
pub enum Answer {
    /// This value, and nothing is made.
    Plain(Value),
    /// A new string of these bytes.
    Fresh(Bytes),
    /// An error.
    Refused(Refusal),
}
