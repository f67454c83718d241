ghost use Rattle.std.specs.Prelude.{◌≡◌, [], IfOk, OnErr, IsTrue};
ghost use Rattle.window_props.specs.Keys.{AreApart, AreApart-prop};
ghost use Rattle.window_props.specs.Rows.{row_keys, platform_rows};
ghost use Rattle.window_props.specs.History.{store_of, store_after, answer_in, define_at, set_at, delete_at};
ghost use Rattle.window_props.specs.Holding.{can_hold};
ghost use Rattle.window_props.specs.declared.props.SetAnswer.TheVariants.{Truth};

use crate::descriptor::{Change, Descriptor};
use crate::index::can_hold;
use crate::key::Key;
use crate::platform::{Object, Platform, names_of};
use crate::rows::{Row, define_in, delete_in, place_of, set_in};
use crate::value::Value;
use plain_data::{Items, Text};
use std::alloc::{AllocError, Global};

/// What a set answers.
#[derive(Clone, Copy, Debug, PartialEq, Eq)]
pub enum SetAnswer {
    /// True where the property was set, false where it can't be.
    Truth(bool),
    /// The platform's setter must run: that of `location`, `name` or `href`, or that of `opener` for null. The store is as
    /// before.
    Setter,
    /// A TypeError: `opener` is still the platform's accessor, was made non-configurable, and the value isn't null. The
    /// store is as before.
    TypeFault,
}

/// The properties of a Window or a Location.
///
/// Contracts see `shown props`, a `Store` of `specs/History`: the object, the property at each key, and the keys in order.
/// Each call takes the store that it finds to the one `after` it, so that after a list of calls the store is that of
/// the list, `store_of object calls`.
///
/// The condition of `define`, `set` and `delete` is a key that the store can hold: on the store of a Window one that is no
/// array index, since these are the Window's children; on that of a Location any. [`Props::can_hold`] tells.
///
/// A call looks its key up by one scan of the keys, and a `set` of an accessor or a call on a Location by one more of the
/// at most fifteen platform names. Beside these some hundred keys of a script count for nothing; from some ten thousand
/// keys on, at tens of microseconds a call, a table by hash would pay.
#[derive(Drop)]
pub struct Props {
    alloc: Global,
    object: Object,
    rows: Vec<Row>,
    ghost apart: { AreApart (row_keys rows.items) } by { AreApart-prop (row_keys rows.items) },
}

// The platform's rows of the object.
fn platform_rows(alloc: Global, object: Object) -> Result<Vec<Row>, AllocError>
    ensures { IfOk result (λ rows. rows.items ≡ platform_rows object) }
{
    let mut rows = Vec::new(alloc);
    for name in names_of(object) {
        let key = Key::Text(Text::copy_of(alloc, name.text())?);
        rows.push(Row {
            key,
            property: name.made(object),
        })?;
    }
    Ok(rows)
}

impl Props {
    ghost use Rattle.window_props.specs.Shown.{store_shown, store_in};

    /// The store of an object on which nothing was called yet: the properties that the platform makes.
    pub fn new(alloc: Global, object: Object) -> Result<Props, AllocError>
        ensures { IfOk result (λ p. store_shown p ≡ store_of object []) }
    {
        let rows = platform_rows(alloc, object)?;
        Ok(Props {
            alloc,
            object,
            rows,
        })
    }

    /// The store that is kept of an object; where none is, that of an object on which nothing was called yet, and only
    /// then memory can be wanting.
    pub fn or_new(alloc: Global, object: Object, kept: Option<Props>) -> Result<Props, AllocError>
        ensures ok { IfOk result (λ p. store_shown p ≡ store_in object kept) }
        ensures err { OnErr result (kept ≡ None) }
    {
        match kept {
            Some(props) => Ok(props),
            None => Props::new(alloc, object),
        }
    }

    /// Whether the store can hold a property at the key: that of a Window none at an array index, that of a Location one
    /// at any key. It takes no memory.
    pub fn can_hold(&self, key: &Key) -> bool
        ensures { result ≡ can_hold (store_shown self.now).object key.now }
    {
        can_hold(self.object, key)
    }

    /// The property at the key (ECMA-262, [[GetOwnProperty]]); `None` exactly where the history has none there.
    pub fn own(&self, key: &Key) -> Result<Option<Descriptor>, AllocError>
        ensures { IfOk result (λ d. d ≡ (store_shown self.now).at key.now) }
    {
        match place_of(&self.rows, key) {
            None => Ok(None),
            Some(i) => Ok(Some(self.rows[i].property.clone()?)),
        }
    }

    /// Defines the property at the key (ECMA-262, [[DefineOwnProperty]] of ordinary objects): makes it where it is
    /// missing, changes it where it takes the change, else answers false. A default of a Location answers false.
    pub fn define(&mut self, key: &Key, change: Change) -> Result<bool, AllocError>
        requires { IsTrue (can_hold (store_shown self.old).object key.now) }
        ensures answer { IfOk result (λ b. Truth b ≡ answer_in (store_shown self.old) (define_at key.now change)) }
        ensures ok { IfOk result (λ _. store_shown self.new ≡ store_after (store_shown self.old) (define_at key.now change)) }
        ensures err { OnErr result (store_shown self.new ≡ store_shown self.old) }
    {
        define_in(self.object, &mut self.rows, key, change)
    }

    /// Sets the property at the key (ECMA-262, OrdinarySet, with the object as receiver): a writable value, or a new
    /// property where none is, answers true; the platform's accessors answer by their setter.
    pub fn set(&mut self, key: &Key, value: Value) -> Result<SetAnswer, AllocError>
        requires { IsTrue (can_hold (store_shown self.old).object key.now) }
        ensures answer { IfOk result (λ answer. answer ≡ answer_in (store_shown self.old) (set_at key.now value)) }
        ensures ok { IfOk result (λ _. store_shown self.new ≡ store_after (store_shown self.old) (set_at key.now value)) }
        ensures err { OnErr result (store_shown self.new ≡ store_shown self.old) }
    {
        set_in(self.object, &mut self.rows, key, value)
    }

    /// Deletes the property at the key (ECMA-262, OrdinaryDelete): true where none is left there. A default of a
    /// Location answers false. It takes no memory.
    pub fn delete(&mut self, key: &Key) -> bool
        requires { IsTrue (can_hold (store_shown self.old).object key.now) }
        ensures answer { Truth result ≡ answer_in (store_shown self.old) (delete_at key.now) }
        ensures ok { store_shown self.new ≡ store_after (store_shown self.old) (delete_at key.now) }
    {
        delete_in(self.object, &mut self.rows, key)
    }

    /// The keys that have a property (ECMA-262, [[OwnPropertyKeys]]): the platform's that were never deleted, in its
    /// order, then the script's in order of creation, symbols among texts. A key of the platform that was deleted and made
    /// again is the script's.
    pub fn keys(&self) -> Result<Items<Key>, AllocError>
        ensures { IfOk result (λ keys. keys ≡ (store_shown self.now).keys) }
    {
        let mut keys = Items::new(self.alloc);
        for row in self.rows.as_slice() {
            keys.push(row.key.clone()?)?;
        }
        Ok(keys)
    }
}
