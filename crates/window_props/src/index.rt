ghost use Rattle.std.specs.Prelude.{◌≡◌};
ghost use Rattle.window_props.specs.Keys.{array_index, index_of, starts_well, value_from, if_index, is_digit};
ghost use Rattle.window_props.specs.Holding.{can_hold};
ghost use Rattle.std.specs.List.{list_all};

use crate::key::Key;
use crate::platform::Object;

// Array indices are below this.
const INDEX_LIMIT: u64 = 4294967295;

fn is_digit(byte: u8) -> bool
    ensures { result ≡ is_digit byte }
{
    48 <= byte && byte <= 57
}

// No zero before other digits.
fn starts_well(text: &[u8]) -> bool
    ensures { result ≡ starts_well text.now }
{
    match text {
        [] => false,
        [_] => true,
        [first, ..] => *first != 48,
    }
}

fn all_digits(text: &[u8]) -> bool
    ensures { result ≡ list_all is_digit text.now }
{
    text.iter().all(|byte| is_digit(*byte))
}

// The value of digits, where it is in range.
#[tactic(auto, using(crate::proofs::IndexLaws::none_left))]
fn if_index(text: &[u8]) -> Option<u32>
    ensures { result ≡ if_index (value_from 0 text.now) }
{
    let mut value: u64 = 0;
    for byte in text {
        if value >= INDEX_LIMIT {
            return None;
        }
        value = value * 10 + (*byte).saturating_sub(48) as u64;
    }
    if value < INDEX_LIMIT {
        Some(value as u32)
    } else {
        None
    }
}

#[tactic(auto, unfolding(crate::specs::Keys::index_of))]
fn index_of(text: &[u8]) -> Option<u32>
    ensures { result ≡ index_of text.now }
{
    if !starts_well(text) || !all_digits(text) {
        return None;
    }
    if_index(text)
}

impl Key {
    /// The array index that the key is (ECMA-262, Object Type): the canonical decimal text of a number from 0 to
    /// 4,294,967,294. `None` exactly where the key is no such text. It takes no memory.
    #[tactic(auto, unfolding(crate::specs::Keys::array_index))]
    pub fn array_index(&self) -> Option<u32>
        ensures { result ≡ array_index self.now }
    {
        match self {
            Key::Text(text) => index_of(text.as_str().as_bytes()),
            _ => None,
        }
    }
}

/// Whether the store of an object can hold a property at the key: that of a Window none at an array index.
pub(crate) fn can_hold(object: Object, key: &Key) -> bool
    ensures { result ≡ can_hold object key.now }
{
    match object {
        Object::Window(_) => key.array_index().is_none(),
        Object::Location(_) => true,
    }
}
