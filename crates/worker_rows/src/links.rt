ghost use Rattle.std.specs.Prelude.{None};

use link_wire::{Link, LinkError};

/// A link that passes calls on to another, and tells nothing of what was heard.
#[derive(Drop)]
pub struct Untold<L: Link> {
    inner: L,
}

impl<L: Link> Untold<L> {
    pub fn new(inner: L) -> Self {
        Untold { inner }
    }
}

impl<L: Link> Link for Untold<L> {
    ghost renderer = { λ _. None };

    ghost heard = { λ _. None };

    ghost pending = { λ _. None };

    ghost faults = { λ link. L.faults link.inner };

    ghost relation = { λ _ _ _ _ _. Unit {0} };

    fn call(&mut self, request: &[u8], reply: &mut Vec<u8>) -> Result<(), LinkError> {
        self.inner.call(request, reply)
    }
}

/// A link that gives these replies, one for each call, whatever it is asked. It fails once none is left.
#[derive(Drop)]
pub struct Replies<'a> {
    left: &'a [Vec<u8>],
    faults: u64,
}

impl<'a> Replies<'a> {
    pub fn new(replies: &'a [Vec<u8>]) -> Self {
        Replies {
            left: replies,
            faults: 0,
        }
    }
}

impl Link for Replies<'_> {
    ghost renderer = { λ _. None };

    ghost heard = { λ _. None };

    ghost pending = { λ _. None };

    ghost faults = { λ link. link.faults };

    ghost relation = { λ _ _ _ _ _. Unit {0} };

    fn call(&mut self, _request: &[u8], reply: &mut Vec<u8>) -> Result<(), LinkError> {
        reply.clear();
        match self.left {
            [first, rest @ ..] => {
                self.left = rest;
                match reply.extend_from_slice(first) {
                    Ok(()) => Ok(()),
                    Err(_) => Err(LinkError::NoMemory),
                }
            }
            [] => {
                self.faults = self.faults.saturating_add(1);
                Err(LinkError::Failed)
            }
        }
    }
}
