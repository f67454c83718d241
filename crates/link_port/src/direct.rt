ghost use Rattle.std.specs.Prelude.{◌≡◌, ◌<◌, None, Some, true};
ghost use Rattle.link_port.specs.Steps.{is_named, pending_of};

use crate::exchanging::exchange;
use crate::spelled::is_more;
use crate::step::{Step, next_step};
use desk::Desk;
use link_wire::{Link, LinkError};
use std::alloc::AllocError;
use tree_view::View;

/// A renderer's link over a coordinator that it alone uses. It tells what was heard, and never fails: only memory can run
/// out.
#[derive(Drop)]
pub struct DirectLink<'a, V: View + Drop> {
    desk: &'a mut Desk<V>,
    renderer: u16,
    step: Option<Step>,
    ghost seat: { renderer < desk.now.rules.renderers },
    ghost named: { is_named renderer desk.now.history (pending_of step) ≡ true },
}

impl<'a, V: View + Drop> DirectLink<'a, V> {
    ghost use Rattle.link_port.specs.Direct as spec;

    /// The link of one of the coordinator's renderers. No step is under way.
    pub fn new(desk: &'a mut Desk<V>, renderer: u16) -> Self
        requires seat { renderer < desk.old.rules.renderers }
        ensures below { spec.below result ≡ desk.old }
        ensures same { result.desk.ghost_name ≡ desk.entry.ghost_name }
        ensures seat { spec.seat result ≡ renderer }
        ensures pending { spec.pending result ≡ None }
    {
        DirectLink {
            desk,
            renderer,
            step: None,
        }
    }
}

impl<V: View + Drop> Link for DirectLink<'_, V> {
    ghost use Rattle.link_port.specs.Direct.{below, heard, pending, seat, Exchanges};

    ghost renderer = { λ link. Some (seat link) };

    ghost heard = { λ link. Some (heard link) };

    ghost pending = { λ link. pending link };

    ghost faults = { λ link. 0 };

    ghost relation = { Exchanges };

    /// Has the coordinator answer the request of this renderer.
    fn call(&mut self, request: &[u8], reply: &mut Vec<u8>) -> Result<(), LinkError> {
        let older = self.desk.told(self.renderer);
        let step = self.step.take();
        match exchange(self.desk, self.renderer, request, reply) {
            Ok(left) => {
                self.step = next_step(step, older, is_more(request), left);
                Ok(())
            }
            Err(AllocError) => {
                self.step = step;
                Err(LinkError::NoMemory)
            }
        }
    }
}
