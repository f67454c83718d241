//! Values that attributes and methods give, and the texts that values are turned into.
ghost use Rattle.std.specs.Prelude.{◌≡◌, IfOk};
ghost use Rattle.window_props.specs.declared.value.Value.TheVariants as value;
ghost use Rattle.object_access.specs.Values as spec;

use plain_data::{Data, Text};
use std::alloc::{AllocError, Global};
use window_props::Value;

/// Undefined.
pub fn undefined() -> Value
    ensures { result ≡ spec.undefined }
{
    Value::Plain(Data::Undefined)
}

/// Null.
pub fn null() -> Value
    ensures { result ≡ spec.null }
{
    Value::Plain(Data::Null)
}

/// A truth value.
pub fn truth(truth: bool) -> Value
    ensures { result ≡ spec.truth truth }
{
    Value::Plain(Data::Truth(truth))
}

/// A text.
pub fn text(alloc: Global, text: &str) -> Result<Value, AllocError>
    ensures { IfOk result (λ v. v ≡ spec.text text.now) }
{
    Ok(Value::Plain(Data::Text(Text::copy_of(alloc, text)?)))
}

/// The navigable's WindowProxy, or the value where there is none.
pub fn window_or(value: Value, nav: Option<u32>) -> Value
    ensures { result ≡ spec.window_or value nav }
{
    match nav {
        None => value,
        Some(nav) => Value::Window(nav),
    }
}

/// The text that data is turned into.
#[tactic(auto, unfolding(object_access::specs::Values::text_of))]
pub fn data_text(alloc: Global, plain: &Data) -> Result<Option<Text>, AllocError>
    ensures { IfOk result (λ t. t ≡ spec.text_of (value.Plain plain.now)) }
{
    match plain {
        Data::Undefined => Ok(Some(Text::copy_of(alloc, "undefined")?)),
        Data::Null => Ok(Some(Text::copy_of(alloc, "null")?)),
        Data::Truth(true) => Ok(Some(Text::copy_of(alloc, "true")?)),
        Data::Truth(false) => Ok(Some(Text::copy_of(alloc, "false")?)),
        Data::Whole(whole) => Ok(Some(Text::from_string(format!(in alloc; "{}", *whole)?))),
        Data::Text(text) => Ok(Some(Text::copy_of(alloc, text.as_str())?)),
        Data::List(_) => Ok(None),
        Data::Record(_) => Ok(None),
    }
}

/// The text that a value is turned into (ECMA-262, ToString): `None` exactly where it is turned into none.
#[tactic(auto, unfolding(object_access::specs::Values::text_of))]
pub fn text_of(alloc: Global, value: &Value) -> Result<Option<Text>, AllocError>
    ensures { IfOk result (λ t. t ≡ spec.text_of value.now) }
{
    match value {
        Value::Plain(plain) => data_text(alloc, plain),
        Value::Window(_) => Ok(None),
        Value::Location(_) => Ok(None),
        Value::Function(_, _) => Ok(None),
        Value::Prototype(_) => Ok(None),
    }
}
