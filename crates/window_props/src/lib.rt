//! The properties of a Window and of a Location, as scripts define, set, delete and describe them.
//!
//! A [`Props`] is the store of one object. It begins with what the platform makes ([`Platform`]; HTML, The Window object
//! and The Location interface), and each call changes one property as ECMA-262 says. After any calls it is the
//! property history of these calls (`specs/History`): what stands at a key is what the newest call at that key made
//! of what stood there before. The laws of such histories, ECMA-262's invariants among them, stand in [`laws`].
//!
//! The store knows no children and no origins. Array indices of a Window, the names of its children and what other
//! origins see of it are the business of the crates above; for the last the lists [`CROSS_WINDOW`] and
//! [`CROSS_LOCATION`], [`listed`] and [`fallback`] stand here.
//!
//! | In words of ECMA-262 | Here |
//! |---|---|
//! | property key | [`Key`] |
//! | language value | [`Value`] |
//! | Property Descriptor, complete | [`Descriptor`] with its [`Body`] |
//! | Property Descriptor, as a define gives it | [`Change`] |
//! | [[GetOwnProperty]], [[DefineOwnProperty]], [[Set]], [[Delete]], [[OwnPropertyKeys]] | `own`, `define`, `set`, `delete`, `keys` of [`Props`] |
#![tactic(auto)]

mod cross;
mod descriptor;
mod index;
mod key;
pub mod laws;
mod names;
mod platform;
mod printing;
mod props;
mod rows;
mod untouched;
mod value;

pub use cross::{cross_names, fallback, listed};
pub use descriptor::{Body, Change, Descriptor};
pub use key::{Key, same_key};
pub use names::{CROSS_LOCATION, CROSS_WINDOW};
pub use platform::{Object, Platform, Role, is_default, named, names_of, role_at};
pub use printing::{descriptor_text, value_text};
pub use props::{Props, SetAnswer};
pub use untouched::{keys_of, own_of};
pub use value::{Kind, Method, Value, same_method, same_object, same_value};
