ghost use Rattle.std.specs.Prelude.{◌≡◌, IfOk};
ghost use Rattle.window_props.specs.Keys.{same_key, key_read, key_text};

use plain_data::Text;
use std::alloc::{AllocError, Global};

/// The key of a property (ECMA-262, Property Keys): a text, or one of the three well-known symbols that an object answers
/// to scripts of every origin.
#[derive(Drop)]
pub enum Key {
    Text(Text),
    /// `@@toStringTag`.
    ToStringTag,
    /// `@@hasInstance`.
    HasInstance,
    /// `@@isConcatSpreadable`.
    IsConcatSpreadable,
}

/// Whether two keys are the same: the same symbol, or texts of the same bytes. It takes no memory.
#[tactic(auto, unfolding(crate::specs::Keys::same_key))]
pub fn same_key(a: &Key, b: &Key) -> bool
    ensures { result ≡ same_key a.now b.now }
{
    match (a, b) {
        (Key::Text(x), Key::Text(y)) => x.as_str() == y.as_str(),
        (Key::ToStringTag, Key::ToStringTag) => true,
        (Key::HasInstance, Key::HasInstance) => true,
        (Key::IsConcatSpreadable, Key::IsConcatSpreadable) => true,
        _ => false,
    }
}

impl Clone for Key {
    ghost is_clone = { λ key copy. copy ≡ key };

    fn clone(&self) -> Result<Key, AllocError> {
        match self {
            Key::Text(text) => Ok(Key::Text(text.clone()?)),
            Key::ToStringTag => Ok(Key::ToStringTag),
            Key::HasInstance => Ok(Key::HasInstance),
            Key::IsConcatSpreadable => Ok(Key::IsConcatSpreadable),
        }
    }
}

impl Key {
    /// The key that a text names: `@@toStringTag`, `@@hasInstance` and `@@isConcatSpreadable` are the symbols, every
    /// other text is itself.
    #[tactic(auto, unfolding(crate::specs::Keys::key_read))]
    pub fn read(alloc: Global, text: &str) -> Result<Key, AllocError>
        ensures { IfOk result (λ k. k ≡ key_read text.now) }
    {
        if text == "@@toStringTag" {
            return Ok(Key::ToStringTag);
        }
        if text == "@@hasInstance" {
            return Ok(Key::HasInstance);
        }
        if text == "@@isConcatSpreadable" {
            return Ok(Key::IsConcatSpreadable);
        }
        Ok(Key::Text(Text::copy_of(alloc, text)?))
    }

    /// The text that names the key, a symbol by `@@` and its name: [`Key::read`] makes the symbol of it again.
    #[tactic(auto, unfolding(crate::specs::Keys::key_text))]
    pub fn as_str(&self) -> &str
        ensures { result.now ≡ key_text self.now }
    {
        match self {
            Key::Text(text) => text.as_str(),
            Key::ToStringTag => "@@toStringTag",
            Key::HasInstance => "@@hasInstance",
            Key::IsConcatSpreadable => "@@isConcatSpreadable",
        }
    }
}
