//! Sessions as JSON texts: which session a text is, or the first refusal with the path to its place.
//!
//! A session says how many renderers there are, which URLs the start windows load, whose turns come first and which
//! pages exist, each with the script that its document runs and the handler that runs at each message.
//! [`read_session`] reads one from the bytes of a JSON text:
//!
//! ```json
//! {"renderers":1,"start":["https://a.test/"],"pages":[{"url":"https://a.test/","script":[{"op":"get","of":"window","key":"closed"}]}]}
//! ```
//!
//! `specs/Session` and `specs/Steps` define the session that a text is, a line for each field, with the readers of the
//! crate `session_reading`; `specs/Range` says what holds of each session that is read, and `specs/Summary` what
//! [`summary_text`] says of it. JSON is read with the crate `serde_json`: of two equal names in an object the last one
//! counts, and an object's members have no order.
#![tactic(auto)]

mod building;
mod limits;
mod page;
mod session;
mod step;
mod summary;
mod value;

pub use agent_terms::{Operand, Page, Session, Step};
pub use building::built;
pub use session::read_session;
pub use session_reading::{Path, Segment, SessionError, path_text, refusal_text};
pub use summary::summary_text;
