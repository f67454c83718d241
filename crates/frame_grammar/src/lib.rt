//! How entries and replies are spelled in frames, and where a reply is cut.
//!
//! The crate holds definitions, in `specs/`. Nothing here runs: `link_wire` reads and writes frames, and its contracts cite
//! these definitions.
#![tactic(auto)]
