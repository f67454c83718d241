//! The pages of a session, found by URL without a look at each of them, and the step that is left of what runs on them.
//!
//! [`Pages`] finds the script or the handler that a point is in, and in it the next step. Sessions are this project's own.
#![tactic(auto)]

mod pages;

pub use pages::Pages;
