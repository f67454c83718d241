//! What a document may do through a WindowProxy, and what comes of it (HTML Standard, 7.2.3).
#![tactic(auto)]

mod attributes;
mod messages;
mod operations;
mod window;

pub use agent_terms::{Ask, Op, Outcome, Rule, Ruling};
pub use object_operations::go;
pub use operations::{
    call, define, delete, get, has, is_extensible, own_keys, own_property, prevent_extensions,
    prototype, set, set_prototype, verdict,
};
