//! Steps that make and drop frames, open windows and follow links.
ghost use Rattle.std.specs.Prelude.{◌≡◌, ◌<◌, ℕ, List, [], Some, option_copied, unwrap_or, slice_get, IfOk};
ghost use Rattle.std.specs.Option.{option_map_or};
ghost use Rattle.origin_core.specs.Flags.{flags_of};
ghost use Rattle.origin_core.specs.Page.{read_page};
ghost use Rattle.tree_log.specs.Tree.{children_of};
ghost use Rattle.object_access.specs.StepAnswer as spec;
ghost use Rattle.window_props.specs.declared.value.Value.{Value as Held};
ghost use Rattle.window_props.specs.declared.platform.Object.{Object};
ghost use Rattle.window_props.specs.History.{Store};
ghost use Rattle.script_steps.specs.Reached.{sight};

use crate::agent::Agent;
use crate::words::gives_no_opener;
use agent_terms::{Outcome, Performed, Request};
use origin_core::{Flags, UrlError, flags_of, read_url};
use plain_data::{Data, Text};
use std::alloc::{AllocError, Global};
use tree_view::View;
use window_props::Value;

// The text, where it is there and isn't empty.
#[tactic(auto, using(crate::proofs::AnyLaws::any_there))]
fn if_any(text: &Option<Text>) -> Option<&str>
    ensures { option_copied result ≡ spec.if_any text.now }
{
    match text {
        Some(text) => {
            if text.as_str().is_empty() {
                None
            } else {
                Some(text.as_str())
            }
        }
        None => None,
    }
}

fn or_empty(alloc: Global, text: &Option<Text>) -> Result<Text, AllocError>
    ensures { IfOk result (λ t. t ≡ unwrap_or text.now []) }
{
    match text {
        Some(text) => text.clone(),
        None => Text::copy_of(alloc, ""),
    }
}

// The flags of a sandbox attribute, or none where there is no attribute.
fn sandbox_flags(sandbox: &Option<Text>) -> Flags
    ensures { result ≡ option_map_or flags_of sandbox.now 0 }
{
    match sandbox {
        Some(text) => flags_of(text.as_str()),
        None => Flags::from_bits(0),
    }
}

impl<'a, V: View> Agent<'a, V> {
    fn frame_at(&self, name: Text, flags: Flags, text: &str) -> Result<Performed, AllocError>
        requires { self.now.doc < (V.tree self.now.view.now).docs }
        ensures { IfOk result (λ p. p ≡ spec.frame_at self.now.doc name flags (read_page (Some (V.urls self.now.view.now self.now.doc)) text.now)) }
    {
        let asker = self.doc;
        match read_url(self.alloc, text, Some(self.view.url_of(asker))) {
            Ok(url) => Ok(Performed::Ask(Request::Frame {
                asker,
                name,
                flags,
                url: Some(url),
            })),
            Err(UrlError::SchemeOut) => Ok(Performed::Answer(Outcome::SchemeOut)),
            Err(UrlError::NotAUrl) => Ok(Performed::Ask(Request::Frame {
                asker,
                name,
                flags,
                url: None,
            })),
            Err(UrlError::NoMemory) => Err(AllocError),
        }
    }

    /// Makes a frame. One whose URL isn't readable loads nothing.
    #[tactic(auto, unfolding(object_access::specs::StepAnswer::frame_step))]
    pub(crate) fn frame(
        &self,
        url: &Option<Text>,
        name: &Option<Text>,
        sandbox: &Option<Text>,
    ) -> Result<Performed, AllocError>
        requires { self.now.doc < (V.tree self.now.view.now).docs }
        ensures { IfOk result (λ p. (registers : ℕ → List ℕ → Held) (stores : Object → Store) → p ≡ spec.frame_step (sight (V.tree self.now.view.now) (V.urls self.now.view.now) registers stores) self.now.doc (unwrap_or name.now []) (option_map_or flags_of sandbox.now 0) (spec.if_any url.now)) }
    {
        let asker = self.doc;
        let name = or_empty(self.alloc, name)?;
        let flags = sandbox_flags(sandbox);
        match if_any(url) {
            Some(text) => self.frame_at(name, flags, text),
            None => Ok(Performed::Ask(Request::Frame {
                asker,
                name,
                flags,
                url: None,
            })),
        }
    }

    /// Takes the frame with an index out of the document. It takes no memory.
    pub(crate) fn drop_frame(&self, index: u32) -> Performed
        requires { self.now.doc < (V.tree self.now.view.now).docs }
        ensures { result ≡ spec.drop_step self.now.doc (slice_get (children_of (V.tree self.now.view.now) self.now.doc) index) }
    {
        match self.view.child_at(self.doc, index) {
            Some(nav) => Performed::Ask(Request::Drop {
                asker: self.doc,
                nav,
            }),
            None => Performed::Answer(Outcome::Value(Value::Plain(Data::Undefined))),
        }
    }

    fn open_at(
        &self,
        target: Text,
        noopener: bool,
        user: bool,
        text: &str,
    ) -> Result<Performed, AllocError>
        requires { self.now.doc < (V.tree self.now.view.now).docs }
        ensures { IfOk result (λ p. p ≡ spec.open_at self.now.doc target noopener user (read_page (Some (V.urls self.now.view.now self.now.doc)) text.now)) }
    {
        let asker = self.doc;
        match read_url(self.alloc, text, Some(self.view.url_of(asker))) {
            Ok(url) => Ok(Performed::Ask(Request::Open {
                asker,
                url: Some(url),
                target,
                noopener,
                user,
            })),
            Err(UrlError::SchemeOut) => Ok(Performed::Answer(Outcome::SchemeOut)),
            Err(UrlError::NotAUrl) => Ok(Performed::Answer(Outcome::Syntax)),
            Err(UrlError::NoMemory) => Err(AllocError),
        }
    }

    /// Opens a window, or finds one.
    #[tactic(auto, unfolding(object_access::specs::StepAnswer::open_step))]
    pub(crate) fn open(
        &self,
        url: &Option<Text>,
        target: &Text,
        noopener: bool,
        user: bool,
    ) -> Result<Performed, AllocError>
        requires { self.now.doc < (V.tree self.now.view.now).docs }
        ensures { IfOk result (λ p. (registers : ℕ → List ℕ → Held) (stores : Object → Store) → p ≡ spec.open_step (sight (V.tree self.now.view.now) (V.urls self.now.view.now) registers stores) self.now.doc target.now noopener user (spec.if_any url.now)) }
    {
        let asker = self.doc;
        let target = target.clone()?;
        match if_any(url) {
            Some(text) => self.open_at(target, noopener, user, text),
            None => Ok(Performed::Ask(Request::Open {
                asker,
                url: None,
                target,
                noopener,
                user,
            })),
        }
    }

    /// Follows a link. One whose URL isn't readable does nothing.
    pub(crate) fn link(
        &self,
        url: &Text,
        target: &Text,
        rel: &Text,
        user: bool,
    ) -> Result<Performed, AllocError>
        requires { self.now.doc < (V.tree self.now.view.now).docs }
        ensures { IfOk result (λ p. p ≡ spec.link_at self.now.doc target.now (spec.gives_no_opener rel.now target.now) user (read_page (Some (V.urls self.now.view.now self.now.doc)) url.now)) }
    {
        let asker = self.doc;
        let noopener = gives_no_opener(rel.as_str(), target.as_str());
        let target = target.clone()?;
        match read_url(self.alloc, url.as_str(), Some(self.view.url_of(asker))) {
            Ok(url) => Ok(Performed::Ask(Request::Link {
                asker,
                url,
                target,
                noopener,
                user,
            })),
            Err(UrlError::SchemeOut) => Ok(Performed::Answer(Outcome::SchemeOut)),
            Err(UrlError::NotAUrl) => {
                Ok(Performed::Answer(Outcome::Value(Value::Plain(Data::Undefined))))
            }
            Err(UrlError::NoMemory) => Err(AllocError),
        }
    }
}
