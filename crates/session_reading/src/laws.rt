//! Laws of the definitions: each is the contract of an empty function.

ghost use Rattle.std.specs.Prelude.{◌≡◌, ℕ, List, Some, Ok, true};
ghost use Rattle.serde_json.specs.Data as json;
ghost use Rattle.serde_json.specs.Read as serde;
ghost use Rattle.plain_data.specs.declared.data.Data.{Data};
ghost use Rattle.plain_data.specs.Ascending.{keys_ascend};
ghost use Rattle.session_reading.specs.PlainData.{plain};
ghost use Rattle.session_reading.specs.Tidy.{IsTidy};

/// What a JSON text reads as has the members of each object by ascending names, each name once; so the keys of the data
/// that a value in it is ascend, and this limit of data refuses nothing that a text holds.
pub fn keys_of_a_text_ascend()
    ensures tidy { (text : List ℕ) (j : json.Data) → serde.read text ≡ Some j → IsTidy j }
    ensures ascend { (j : json.Data) (value : Data) → IsTidy j → plain j ≡ Ok value → keys_ascend value ≡ true }
{}
