ghost use Rattle.std.specs.Prelude.{◌≡◌, ◌↔◌, IsTrue, IfOk};

use crate::NoMemory;
use crate::text::TextVal;

/// The value of an attribute.
#[derive(Debug, Drop)]
pub enum Value {
    /// A whole number of 64 bits.
    Whole(i64),
    /// A truth value.
    Truth(bool),
    /// A text.
    Text(TextVal),
}

impl Value {
    /// The same value.
    pub fn copy(&self) -> Result<Value, NoMemory>
        ensures { IfOk result (λ value. value ≡ self.now) }
    {
        match self {
            Value::Whole(number) => Ok(Value::Whole(*number)),
            Value::Truth(truth) => Ok(Value::Truth(*truth)),
            Value::Text(text) => {
                let text = text.copy()?;
                Ok(Value::Text(text))
            }
        }
    }

    /// Whether the two are one value: of one kind, and the same number, truth or text.
    pub fn same(&self, other: &Value) -> bool
        ensures { IsTrue result ↔ (self.now ≡ other.now) }
    {
        match (self, other) {
            (Value::Whole(number), Value::Whole(other)) => number == other,
            (Value::Truth(truth), Value::Truth(other)) => truth == other,
            (Value::Text(text), Value::Text(other)) => text == other,
            _ => false,
        }
    }
}
