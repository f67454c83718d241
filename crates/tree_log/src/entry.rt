ghost use Rattle.std.specs.Prelude.{◌≡◌, IfOk};

use origin_core::{Flags, HostText, Origin, PageUrl};
use plain_data::{Data, Text};
use std::alloc::AllocError;

/// A document that is to be loaded.
#[derive(Drop)]
pub struct Load {
    /// The number of the document.
    pub doc: u32,
    /// The renderer that is to hold it.
    pub home: u16,
    pub origin: Origin,
    pub url: PageUrl,
}

/// The origins that a message is for (HTML Standard, 9.3.3, the target origin of `postMessage`).
#[derive(Drop)]
pub enum Target {
    Any,
    /// An origin that no document has.
    Never,
    Origin(Origin),
}

/// Why a message was not delivered.
#[derive(Clone, Copy, Debug, PartialEq, Eq)]
pub enum Cause {
    /// Its document was no longer active.
    Inactive,
    /// Its document has another origin than the target.
    Origin,
}

/// What happened. Navigables, documents and groups have numbers, from 0 in the order in which the log makes them.
#[derive(Drop)]
pub enum What {
    /// A new top-level navigable, with its initial document and what it loads.
    Open {
        nav: u32,
        doc: u32,
        group: u32,
        home: u16,
        origin: Origin,
        name: Text,
        opener: Option<u32>,
        flags: Flags,
        navigator: Option<u32>,
        load: Option<Load>,
    },
    /// A new child navigable of the acting document, with its initial document and what it loads.
    Frame {
        nav: u32,
        doc: u32,
        home: u16,
        origin: Origin,
        name: Text,
        flags: Flags,
        load: Option<Load>,
    },
    /// A child navigable was taken out of its document.
    Drop {
        nav: u32,
    },
    /// A navigable has another target name.
    Name {
        nav: u32,
        name: Text,
    },
    /// A navigable begins to load a document.
    Begin {
        nav: u32,
        load: Load,
    },
    /// The document whose load began at the place `begin` is active from here on.
    Commit {
        nav: u32,
        doc: u32,
        begin: u32,
    },
    /// A document has another URL, which differs from the earlier one in its fragment alone.
    Fragment {
        nav: u32,
        doc: u32,
        url: PageUrl,
    },
    /// A navigable has another opener, or none.
    Opener {
        nav: u32,
        to: Option<u32>,
    },
    /// A message to the document `to`, from the navigable `from` whose document had this origin.
    Post {
        to: u32,
        from: u32,
        origin: Origin,
        target: Target,
        body: Data,
    },
    /// The message that stands at the place `post` was delivered.
    Fire {
        doc: u32,
        post: u32,
    },
    /// The message that stands at the place `post` was not delivered, and never will be.
    Lapse {
        doc: u32,
        post: u32,
        cause: Cause,
    },
    /// A top-level navigable was asked to close.
    Closing {
        nav: u32,
    },
    /// A top-level navigable closed.
    Gone {
        nav: u32,
    },
    /// The coordinator lost a renderer.
    Lost {
        renderer: u16,
    },
    /// A document only asked what happened.
    Sync,
    /// An entry that isn't shown.
    Hidden,
    /// A document has set its domain (HTML Standard, 7.1.1.2, the setter of `document.domain`).
    Domain {
        doc: u32,
        domain: HostText,
    },
}

/// An entry of the log: the renderer that made it, the document that acted, and what happened.
#[derive(Drop)]
pub struct Entry {
    pub by: Option<u16>,
    pub actor: Option<u32>,
    pub what: What,
}

impl Clone for Load {
    ghost is_clone = { λ load copy. copy ≡ load };

    fn clone(&self) -> Result<Load, AllocError> {
        Ok(Load {
            doc: self.doc,
            home: self.home,
            origin: self.origin.clone()?,
            url: self.url.clone()?,
        })
    }
}

fn copy_load(load: &Option<Load>) -> Result<Option<Load>, AllocError>
    ensures { IfOk result (λ copy. copy ≡ load.now) }
{
    match load {
        Some(load) => Ok(Some(load.clone()?)),
        None => Ok(None),
    }
}

impl Clone for Target {
    ghost is_clone = { λ target copy. copy ≡ target };

    fn clone(&self) -> Result<Target, AllocError> {
        match self {
            Target::Any => Ok(Target::Any),
            Target::Never => Ok(Target::Never),
            Target::Origin(origin) => Ok(Target::Origin(origin.clone()?)),
        }
    }
}

impl Clone for What {
    ghost is_clone = { λ what copy. copy ≡ what };

    fn clone(&self) -> Result<What, AllocError> {
        match self {
            What::Open {
                nav,
                doc,
                group,
                home,
                origin,
                name,
                opener,
                flags,
                navigator,
                load,
            } => Ok(What::Open {
                nav: *nav,
                doc: *doc,
                group: *group,
                home: *home,
                origin: origin.clone()?,
                name: name.clone()?,
                opener: *opener,
                flags: *flags,
                navigator: *navigator,
                load: copy_load(load)?,
            }),
            What::Frame {
                nav,
                doc,
                home,
                origin,
                name,
                flags,
                load,
            } => Ok(What::Frame {
                nav: *nav,
                doc: *doc,
                home: *home,
                origin: origin.clone()?,
                name: name.clone()?,
                flags: *flags,
                load: copy_load(load)?,
            }),
            What::Drop { nav } => Ok(What::Drop { nav: *nav }),
            What::Name { nav, name } => Ok(What::Name {
                nav: *nav,
                name: name.clone()?,
            }),
            What::Begin { nav, load } => Ok(What::Begin {
                nav: *nav,
                load: load.clone()?,
            }),
            What::Commit { nav, doc, begin } => Ok(What::Commit {
                nav: *nav,
                doc: *doc,
                begin: *begin,
            }),
            What::Fragment { nav, doc, url } => Ok(What::Fragment {
                nav: *nav,
                doc: *doc,
                url: url.clone()?,
            }),
            What::Opener { nav, to } => Ok(What::Opener { nav: *nav, to: *to }),
            What::Post {
                to,
                from,
                origin,
                target,
                body,
            } => Ok(What::Post {
                to: *to,
                from: *from,
                origin: origin.clone()?,
                target: target.clone()?,
                body: body.clone()?,
            }),
            What::Fire { doc, post } => Ok(What::Fire {
                doc: *doc,
                post: *post,
            }),
            What::Lapse { doc, post, cause } => Ok(What::Lapse {
                doc: *doc,
                post: *post,
                cause: *cause,
            }),
            What::Closing { nav } => Ok(What::Closing { nav: *nav }),
            What::Gone { nav } => Ok(What::Gone { nav: *nav }),
            What::Lost { renderer } => Ok(What::Lost {
                renderer: *renderer,
            }),
            What::Sync => Ok(What::Sync),
            What::Hidden => Ok(What::Hidden),
            What::Domain { doc, domain } => Ok(What::Domain {
                doc: *doc,
                domain: domain.clone()?,
            }),
        }
    }
}

impl Clone for Entry {
    ghost is_clone = { λ entry copy. copy ≡ entry };

    fn clone(&self) -> Result<Entry, AllocError> {
        Ok(Entry {
            by: self.by,
            actor: self.actor,
            what: self.what.clone()?,
        })
    }
}
