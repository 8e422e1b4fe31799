//! Texts: their concatenation, and LIKE.

ghost use Rattle.std.specs.Prelude.{◌≡◌, ◌++◌, IfOk};
ghost use Rattle.vdb_model.specs.Words as spec;

use crate::patterns::is_like;
use std::alloc::Global;
use vdb_base::{NoMemory, Text, Value};

/// One text after another, or NULL where one of them is.
#[tactic(auto, using(crate::proofs::Joined::linked_nothing))]
pub fn joined(alloc: Global, vs: &[Value]) -> Result<Value, NoMemory>
    ensures { IfOk result (λ made. made ≡ spec.joined vs.now) }
{
    let mut text = Text::new(alloc);
    for v in vs {
        let Value::Str(more) = v else {
            return Ok(Value::Null);
        };
        text.push_str(more.as_str())?;
    }
    Ok(Value::Str(text))
}

/// Whether the whole text matches the pattern, or NULL.
pub fn like(v: &Value, pattern: &Text) -> Value
    ensures { result ≡ spec.like v.now pattern.now }
{
    match v {
        Value::Str(text) => Value::Bool(is_like(pattern.as_bytes(), text.as_bytes())),
        _ => Value::Null,
    }
}
