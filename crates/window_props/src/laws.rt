//! What holds of an object's properties whatever is done on it: ECMA-262's "Invariants of the Essential Internal Methods",
//! and what a refused call leaves. Each function is empty, and its clause is the law. In the clauses a list of calls
//! stands newest first, `property object calls key` is the property at a key after them, and `keys object calls` lists
//! the keys.
ghost use Rattle.std.specs.Prelude.{◌≡◌, ◌<◌, ◌^◌, ◌-◌, ℕ, ◌++◌, List, Some, None, true, false, is_some, ◌∷◌};
ghost use Rattle.window_props.specs.declared.key.Key.{Key};
ghost use Rattle.window_props.specs.declared.platform.Object.{Object};
ghost use Rattle.window_props.specs.declared.value.Value.{Value};
ghost use Rattle.window_props.specs.declared.props.SetAnswer.TheVariants.{Truth};
ghost use Rattle.window_props.specs.declared.descriptor.Descriptor.{Descriptor};
ghost use Rattle.window_props.specs.History.{Call, Store, property, keys, store_after, answer_in, set_at, delete_at};
ghost use Rattle.window_props.specs.Invariants.{is_fixed, is_refusal, IsKept, value_of};
ghost use Rattle.std.specs.Fmt.{decimal};
ghost use Rattle.window_props.specs.declared.key.Key.TheVariants.{Text};
ghost use Rattle.window_props.specs.Keys.{has_key, AreApart, array_index};

/// A key is listed exactly where there is a property.
pub fn keys_are_where_properties_are()
    ensures { (object : Object) (calls : List Call) (key : Key) → has_key (keys object calls) key ≡ is_some (property object calls key) }
{}

/// No key is listed twice.
pub fn no_key_is_listed_twice()
    ensures { (object : Object) (calls : List Call) → AreApart (keys object calls) }
{}

/// A property that is neither configurable nor writable stays as it is, whatever is called later.
pub fn fixed_properties_stay()
    ensures { (object : Object) (newer older : List Call) (key : Key) (d : Descriptor) →
        property object older key ≡ Some d → is_fixed d ≡ true → property object (newer ++ older) key ≡ Some d }
{}

/// A property that isn't configurable stays there, not configurable and as enumerable as it is. It stays data, or the
/// same accessor.
pub fn unconfigurable_properties_stay()
    ensures { (object : Object) (call : Call) (older : List Call) (key : Key) (d : Descriptor) →
        property object older key ≡ Some d → d.configurable ≡ false → IsKept d (property object (call ∷ older) key) }
{}

/// A call that answers otherwise than true leaves the store as it is: a refused define, set or delete, a set that asks
/// for its setter, and one that is a TypeError.
pub fn refused_calls_change_nothing()
    ensures { (store : Store) (call : Call) → is_refusal (answer_in store call) ≡ true → store_after store call ≡ store }
{}

/// A set that answers true is read back: the property at its key then has that value.
pub fn sets_are_read_back()
    ensures { (store : Store) (key : Key) (value : Value) →
        answer_in store (set_at key value) ≡ Truth true → value_of ((store_after store (set_at key value)).at key) ≡ Some value }
{}

/// A delete that answers true leaves no property at its key.
pub fn deleted_properties_are_gone()
    ensures { (store : Store) (key : Key) →
        answer_in store (delete_at key) ≡ Truth true → (store_after store (delete_at key)).at key ≡ None }
{}

/// The text of a number below 2^32 - 1 is that array index.
pub fn numbers_are_array_indices()
    ensures { (n : ℕ) → n < 2 ^ 32 - 1 → array_index (Text (decimal n)) ≡ Some n }
{}

/// A key is the array index n only where it is the text of n, and n is below 2^32 - 1.
pub fn array_indices_are_numbers()
    ensures text { (key : Key) (n : ℕ) → array_index key ≡ Some n → key ≡ Text (decimal n) }
    ensures range { (key : Key) (n : ℕ) → array_index key ≡ Some n → n < 2 ^ 32 - 1 }
{}
