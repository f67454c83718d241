ghost use Rattle.std.specs.Prelude.{◌≡◌};
ghost use Rattle.agent_terms.specs.Texts.{op_text, op_named};

use plain_data::{Data, Text};
use window_props::Key;

/// What a step works with: what a register holds, or data.
#[derive(Drop)]
pub enum Operand {
    /// The register of this name.
    Register(Text),
    Plain(Data),
}

/// A step of a script. Its fields are those of the session's text. `of` and `to` are names of registers, and a
/// `user` says whether a person caused the step.
#[derive(Drop)]
pub enum Step {
    /// Puts a value into a register.
    Let {
        to: Option<Text>,
        value: Operand,
    },
    /// Gets a property.
    Get {
        of: Text,
        key: Key,
        to: Option<Text>,
    },
    /// Asks whether there is a property.
    Has {
        of: Text,
        key: Key,
    },
    /// Describes an own property.
    Describe {
        of: Text,
        key: Key,
    },
    /// Lists the keys of the own properties.
    Keys {
        of: Text,
    },
    /// Gets the prototype.
    Proto {
        of: Text,
    },
    /// Sets the prototype to null.
    SetProto {
        of: Text,
    },
    /// Asks whether properties may be added.
    Extensible {
        of: Text,
    },
    /// Asks that no property be added any more.
    Prevent {
        of: Text,
    },
    /// Sets a property.
    Set {
        of: Text,
        key: Key,
        value: Operand,
        user: bool,
    },
    /// Defines a property, with the parts that are given.
    Define {
        of: Text,
        key: Key,
        value: Option<Operand>,
        writable: Option<bool>,
        enumerable: Option<bool>,
        configurable: Option<bool>,
    },
    /// Deletes a property.
    Delete {
        of: Text,
        key: Key,
    },
    /// Calls the method under a key.
    Call {
        of: Text,
        key: Key,
        args: plain_data::Items<Operand>,
        to: Option<Text>,
        user: bool,
    },
    /// Asks the coordinator what happened.
    Sync,
    /// Makes a frame.
    Frame {
        url: Option<Text>,
        name: Option<Text>,
        sandbox: Option<Text>,
        to: Option<Text>,
    },
    /// Takes the frame with this index out of the document.
    Drop {
        index: u32,
    },
    /// Opens a window, or finds one.
    Open {
        url: Option<Text>,
        target: Text,
        noopener: bool,
        user: bool,
        to: Option<Text>,
    },
    /// Follows a link.
    Link {
        url: Text,
        target: Text,
        rel: Text,
        user: bool,
    },
    /// Sets the document's domain.
    Domain {
        value: Text,
    },
}

/// The name of a step.
#[derive(Clone, Copy, Debug, PartialEq, Eq)]
pub enum OpName {
    Let,
    Get,
    Has,
    Describe,
    Keys,
    Proto,
    SetProto,
    Extensible,
    Prevent,
    Set,
    Define,
    Delete,
    Call,
    Sync,
    Frame,
    Drop,
    Open,
    Link,
    Domain,
}

const ALL_OPS: [OpName; 19] = [
    OpName::Let,
    OpName::Get,
    OpName::Has,
    OpName::Describe,
    OpName::Keys,
    OpName::Proto,
    OpName::SetProto,
    OpName::Extensible,
    OpName::Prevent,
    OpName::Set,
    OpName::Define,
    OpName::Delete,
    OpName::Call,
    OpName::Sync,
    OpName::Frame,
    OpName::Drop,
    OpName::Open,
    OpName::Link,
    OpName::Domain,
];

impl OpName {
    /// The name as sessions and records spell it. It takes no memory.
    #[tactic(auto, unfolding(crate::specs::Texts::op_text))]
    pub fn text(self) -> &'static str
        ensures { result.now ≡ op_text self }
    {
        match self {
            OpName::Let => "let",
            OpName::Get => "get",
            OpName::Has => "has",
            OpName::Describe => "describe",
            OpName::Keys => "keys",
            OpName::Proto => "proto",
            OpName::SetProto => "setproto",
            OpName::Extensible => "extensible",
            OpName::Prevent => "prevent",
            OpName::Set => "set",
            OpName::Define => "define",
            OpName::Delete => "delete",
            OpName::Call => "call",
            OpName::Sync => "sync",
            OpName::Frame => "frame",
            OpName::Drop => "drop",
            OpName::Open => "open",
            OpName::Link => "link",
            OpName::Domain => "domain",
        }
    }

    /// The step that a text names; `None` exactly where no step has the text as its name. It takes no memory.
    #[tactic(auto, unfolding(crate::specs::Texts::op_named))]
    pub fn named(text: &str) -> Option<OpName>
        ensures { result ≡ op_named text.now }
    {
        ALL_OPS.iter().copied().find(|op| op.text() == text)
    }
}
