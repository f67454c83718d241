ghost use Rattle.std.specs.Prelude.{◌≡◌, ◌↔◌, None, IfOk};
ghost use Rattle.web_message.specs.Cloning.{data_of};

use plain_data::Data;
use thiserror::Error;
use window_props::Value;

/// Why a message takes nothing of a value.
#[derive(Clone, Copy, Debug, PartialEq, Eq, Error)]
pub enum CloneError {
    /// The value is an object of the platform: a Window, a Location, a function or a prototype.
    #[error("no data")]
    DataClone,
    #[error("out of memory")]
    NoMemory,
}

/// The data that a message takes of a value (HTML Standard, 2.7.3, StructuredSerializeInternal): a copy.
///
/// `DataClone` comes exactly where the value is an object of the platform, however much memory there is.
pub fn clone_of(value: &Value) -> Result<Data, CloneError>
    ensures ok { IfOk result (λ copy. data_of value.now ≡ Some copy) }
    ensures data_clone { (result ≡ Err CloneError.DataClone) ↔ (data_of value.now ≡ None) }
{
    match value {
        Value::Plain(data) => match data.clone() {
            Ok(copy) => Ok(copy),
            Err(_) => Err(CloneError::NoMemory),
        },
        Value::Window(_) => Err(CloneError::DataClone),
        Value::Location(_) => Err(CloneError::DataClone),
        Value::Function(_, _) => Err(CloneError::DataClone),
        Value::Prototype(_) => Err(CloneError::DataClone),
    }
}
