ghost use Rattle.std.specs.Prelude.{◌≡◌};
ghost use Rattle.link_port.specs.Gated.{inside, seat};

use crate::gates::Gate;
use link_wire::{Link, LinkError};

/// A renderer's link behind a gate, which it asks before each call. Else it does and tells what the link inside, which it
/// borrows, does and tells.
#[derive(Drop)]
pub struct GatedLink<'a, L: Link, G: Gate> {
    inner: &'a mut L,
    renderer: u16,
    gate: &'a G,
}

impl<'a, L: Link, G: Gate> GatedLink<'a, L, G> {
    /// A link whose calls pass the gate as those of this renderer.
    pub fn new(inner: &'a mut L, renderer: u16, gate: &'a G) -> Self
        ensures inner { inside result ≡ inner.old }
        ensures same { result.inner.ghost_name ≡ inner.entry.ghost_name }
        ensures seat { seat result ≡ renderer }
    {
        GatedLink {
            inner,
            renderer,
            gate,
        }
    }
}

impl<L: Link, G: Gate> Link for GatedLink<'_, L, G> {
    ghost use Rattle.link_port.specs.Gated.{inside, CallsInside};

    ghost renderer = { λ link. L.renderer (inside link) };

    ghost heard = { λ link. L.heard (inside link) };

    ghost pending = { λ link. L.pending (inside link) };

    ghost faults = { λ link. L.faults (inside link) };

    ghost relation = { CallsInside L.relation };

    /// Passes the gate, and calls the link inside.
    fn call(&mut self, request: &[u8], reply: &mut Vec<u8>) -> Result<(), LinkError> {
        self.gate.pass(self.renderer, request);
        self.inner.call(request, reply)
    }
}
