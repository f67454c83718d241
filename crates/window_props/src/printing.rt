ghost use Rattle.std.specs.Prelude.{◌≡◌, IfOk, string_bytes};
ghost use Rattle.window_props.specs.ValueText as spec;

use crate::descriptor::{Body, Descriptor};
use crate::value::{Kind, Method, Value};
use plain_data::{Text, text_of};
use std::alloc::{AllocError, Global};

impl Method {
    /// The method's name, which is also its key.
    #[tactic(auto, unfolding(crate::specs::ValueText::method_text))]
    pub fn text(self) -> &'static str
        ensures { result.now ≡ spec.method_text self }
    {
        match self {
            Method::Close => "close",
            Method::Focus => "focus",
            Method::Blur => "blur",
            Method::PostMessage => "postMessage",
            Method::Assign => "assign",
            Method::Replace => "replace",
        }
    }
}

impl Kind {
    /// The interface's name.
    #[tactic(auto, unfolding(crate::specs::ValueText::kind_text))]
    pub fn text(self) -> &'static str
        ensures { result.now ≡ spec.kind_text self }
    {
        match self {
            Kind::Window => "Window",
            Kind::Location => "Location",
        }
    }
}

#[tactic(auto, unfolding(crate::specs::ValueText::truth_text))]
fn truth_text(truth: bool) -> &'static str
    ensures { result.now ≡ spec.truth_text truth }
{
    if truth { "true" } else { "false" }
}

/// A value as a record prints it: data as [`plain_data::text_of`] writes it, `window n1` by the navigable, `location d3`
/// by the document, `function close`, `prototype Window`.
#[tactic(auto, unfolding(crate::specs::ValueText::value_text))]
pub fn value_text(alloc: Global, value: &Value) -> Result<Text, AllocError>
    ensures { IfOk result (λ text. text ≡ spec.value_text value.now) }
{
    let text = match value {
        Value::Plain(plain) => return text_of(alloc, plain),
        Value::Window(navigable) => format!(in alloc; "window n{}", *navigable)?,
        Value::Location(document) => format!(in alloc; "location d{}", *document)?,
        Value::Function(method, _) => format!(in alloc; "function {}", method.text())?,
        Value::Prototype(kind) => format!(in alloc; "prototype {}", kind.text())?,
    };
    Ok(Text::from_string(text))
}

#[tactic(auto, unfolding(crate::specs::ValueText::body_text))]
fn body_text(alloc: Global, body: &Body) -> Result<String, AllocError>
    ensures { IfOk result (λ text. string_bytes text ≡ spec.body_text body.now) }
{
    let text = match body {
        Body::Value { value, writable } => {
            let value = value_text(alloc, value)?;
            format!(in alloc; "data value={} w={}", value.as_str(), truth_text(*writable))?
        }
        Body::Accessor { get, set } => {
            format!(in alloc;
                "accessor get={} set={}",
                truth_text(*get),
                truth_text(*set)
            )?
        }
    };
    Ok(text)
}

/// A property as a record prints it: `data value=V w=false e=true c=true`, V as [`value_text`] prints it, or
/// `accessor get=true set=false e=false c=true`.
#[tactic(auto, unfolding(crate::specs::ValueText::descriptor_text))]
pub fn descriptor_text(alloc: Global, property: &Descriptor) -> Result<Text, AllocError>
    ensures { IfOk result (λ text. text ≡ spec.descriptor_text property.now) }
{
    let body = body_text(alloc, &property.body)?;
    let enumerable = truth_text(property.enumerable);
    let configurable = truth_text(property.configurable);
    let text = format!(in alloc; "{} e={} c={}", body.as_str(), enumerable, configurable)?;
    Ok(Text::from_string(text))
}
