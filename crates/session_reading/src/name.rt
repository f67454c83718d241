ghost use Rattle.std.specs.Prelude.{◌≡◌};
ghost use Rattle.session_reading.specs.Names.{text_of};

/// The name of a field that some object of a session text has.
#[derive(Clone, Copy, Debug, PartialEq, Eq)]
pub enum Name {
    Renderers,
    Suffixes,
    Start,
    Order,
    Lose,
    Pages,
    Takeover,
    Renderer,
    Call,
    Served,
    Frame,
    Applied,
    Url,
    Script,
    Handler,
    Keep,
    Left,
    Right,
    Session,
    Trace,
    Op,
    To,
    Value,
    Of,
    Key,
    User,
    Writable,
    Enumerable,
    Configurable,
    Args,
    Name,
    Sandbox,
    Index,
    Target,
    Noopener,
    Rel,
    Channel,
    /// `$`, which names a register.
    Dollar,
}

impl Name {
    /// The name as it is spelled in a text.
    #[tactic(auto, unfolding(crate::specs::Names::text_of))]
    pub fn text(self) -> &'static str
        ensures { result.now ≡ text_of self }
    {
        match self {
            Name::Renderers => "renderers",
            Name::Suffixes => "suffixes",
            Name::Start => "start",
            Name::Order => "order",
            Name::Lose => "lose",
            Name::Pages => "pages",
            Name::Takeover => "takeover",
            Name::Renderer => "renderer",
            Name::Call => "call",
            Name::Served => "served",
            Name::Frame => "frame",
            Name::Applied => "applied",
            Name::Url => "url",
            Name::Script => "script",
            Name::Handler => "handler",
            Name::Keep => "keep",
            Name::Left => "left",
            Name::Right => "right",
            Name::Session => "session",
            Name::Trace => "trace",
            Name::Op => "op",
            Name::To => "to",
            Name::Value => "value",
            Name::Of => "of",
            Name::Key => "key",
            Name::User => "user",
            Name::Writable => "writable",
            Name::Enumerable => "enumerable",
            Name::Configurable => "configurable",
            Name::Args => "args",
            Name::Name => "name",
            Name::Sandbox => "sandbox",
            Name::Index => "index",
            Name::Target => "target",
            Name::Noopener => "noopener",
            Name::Rel => "rel",
            Name::Channel => "channel",
            Name::Dollar => "$",
        }
    }
}
