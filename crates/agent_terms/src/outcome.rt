ghost use Rattle.std.specs.Prelude.{◌≡◌};
ghost use Rattle.agent_terms.specs.Texts.{rule_text};

use origin_core::PageUrl;
use plain_data::{Data, Items, Text};
use tree_log::Target;
use window_props::{Descriptor, Key, Value};

/// Why an access or a request is refused with a SecurityError.
#[derive(Clone, Copy, Debug, PartialEq, Eq)]
pub enum Rule {
    /// A foreign object has no property under the key that it shows.
    S1,
    /// A foreign window has no child with the index.
    S2,
    /// A foreign accessor shows no getter.
    S3,
    /// A foreign property can't be set.
    S4,
    /// A foreign object's properties can't be defined.
    S5,
    /// A foreign object's properties can't be deleted.
    S6,
    /// The document may not navigate there.
    S7,
    /// The document isn't same origin-domain with that which it would change.
    S8,
    /// The document is sandboxed, so it may not set its domain.
    S9,
    /// The document has no domain, since its origin is opaque.
    S10,
    /// The document's domain can't become that one.
    S11,
}

impl Rule {
    /// The rule as records spell it: `S1` to `S11`. It takes no memory.
    #[tactic(auto, unfolding(crate::specs::Texts::rule_text))]
    pub fn text(self) -> &'static str
        ensures { result.now ≡ rule_text self }
    {
        match self {
            Rule::S1 => "S1",
            Rule::S2 => "S2",
            Rule::S3 => "S3",
            Rule::S4 => "S4",
            Rule::S5 => "S5",
            Rule::S6 => "S6",
            Rule::S7 => "S7",
            Rule::S8 => "S8",
            Rule::S9 => "S9",
            Rule::S10 => "S10",
            Rule::S11 => "S11",
        }
    }
}

/// Whether an operation is allowed.
#[derive(Clone, Copy, Debug, PartialEq, Eq)]
pub enum Ruling {
    Allowed,
    Refused(Rule),
}

/// An operation on an object.
#[derive(Clone, Copy, Debug, PartialEq, Eq)]
pub enum Op {
    Get,
    Set,
    Has,
    Delete,
    Define,
    Describe,
    Keys,
    Prototype,
}

/// What an operation wants of the coordinator.
#[derive(Drop)]
pub enum Ask {
    /// The navigable of the document is to go to a URL.
    Go {
        doc: u32,
        url: PageUrl,
    },
    /// The navigable of the document is to have a name.
    Name {
        doc: u32,
        name: Text,
    },
    /// The navigable of the document is to have no opener.
    Disown {
        doc: u32,
    },
    /// The navigable of the document is to close.
    Close {
        doc: u32,
    },
    /// A message for the document.
    Post {
        doc: u32,
        target: Target,
        body: Data,
    },
}

/// What an operation came to.
#[derive(Drop)]
pub enum Outcome {
    Value(Value),
    Truth(bool),
    Keys(Items<Key>),
    /// A property that was described, or none.
    Own(Option<Descriptor>),
    /// A SecurityError.
    Security(Rule),
    /// A SyntaxError: a text is no URL.
    Syntax,
    /// A URL that no document can have.
    SchemeOut,
    /// A DataCloneError: a value is no data.
    DataClone,
    /// A TypeError.
    TypeFault,
    /// It is for the coordinator.
    Ask(Ask),
}
