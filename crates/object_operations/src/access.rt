//! The operations on an object that a document meets, a Window and a Location alike (HTML Standard, 7.2.3, the
//! WindowProxy exotic object, and 7.2.4.1 to 7.2.4.10, the Location exotic object; ECMA-262, 10.1).

mod calling;
mod changing;
mod foreign;
mod listing;
mod reading;
mod ruling;

pub use calling::{built_in, call};
pub use changing::{define, delete, set};
pub use listing::own_keys;
pub use reading::{
    get, has, is_extensible, own_property, prevent_extensions, prototype, set_prototype,
};
pub use ruling::verdict;
