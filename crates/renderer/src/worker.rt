ghost use Rattle.std.specs.Prelude.{◌≡◌, reverse, true, IfOk, OnOk, OnErr};
ghost use Rattle.single_agent.specs.Lengths.{has_stopped};
ghost use Rattle.single_agent.specs.NextMove.{move_request};
ghost use Rattle.step_ranges.specs.Ranges.{are_pages_short};
ghost use Rattle.renderer.specs.Calls.{GivesUp, IsHonest, StopsByFault};
ghost use Rattle.renderer.specs.Held.{IsFit};
ghost use Rattle.renderer.specs.Fitting.{IsFor};
ghost use Rattle.renderer.specs.Holding.{fresh, move_in};
ghost use Rattle.renderer.specs.Turning.{Steps};

use crate::state::State;
use crate::turn::Turn;
use agent_terms::{Act, Page};
use link_exchange::EmptyView;
use link_wire::Link;
use std::alloc::{AllocError, Global};

/// A renderer: what it heard, the windows and scripts of its documents, and its record.
///
/// Contracts see what it holds, by one word (`held`): its number, the pages, its acts and the entries heard, the newest first, the
/// script or handler that runs, its registers and the properties of its objects. The windows of documents that are homed here
/// are local, and all others are proxies, of whose documents it holds nothing but what was heard.
#[derive(Drop)]
pub struct Worker<'a, V: EmptyView> {
    state: State<'a, V>,
    ghost fit: { IsFit state },
}

impl<'a, V: EmptyView> Worker<'a, V> {
    ghost use Rattle.renderer.specs.Worker.{held};

    /// The renderer with this number, which has heard nothing, where these are the pages that there are. Their texts and data are
    /// within the limits of frames. It fails only where there is no memory.
    pub fn new(alloc: Global, renderer: u16, pages: &'a [Page]) -> Result<Self, AllocError>
        requires short { are_pages_short pages.now ≡ true }
        ensures { IfOk result (λ w. held w ≡ fresh renderer pages.now) }
    {
        let state = State::new(alloc, renderer, pages)?;
        Ok(Worker { state })
    }

    /// Its number. It takes no memory.
    pub fn renderer(&self) -> u16
        ensures { result ≡ (held self.now).renderer }
    {
        self.state.renderer
    }

    /// The acts, the oldest first. It takes no memory.
    pub fn acts(&self) -> &[Act]
        ensures { reverse result.now ≡ (held self.now).acts }
    {
        self.state.acts.acts()
    }

    /// Whether the newest act was lost: it makes no step any more. It takes no memory.
    pub fn has_stopped(&self) -> bool
        ensures { result ≡ has_stopped (held self.now).acts }
    {
        self.state.acts.has_stopped()
    }

    /// How many entries were heard, but for those of an exchange that failed. It takes no memory.
    pub fn heard(&self) -> u32
        ensures { result ≡ (held self.now).len }
    {
        self.state.heard
    }

    /// One step: the next step of the script or the handler that runs, or else the next task.
    ///
    /// A step that needs no one else is made on what was heard, and makes no call. Any other makes one call of the link with its
    /// request, and then asks for the rest until no more is to be told. Where the link tells its renderer and the entries heard,
    /// they have to be this renderer's.
    ///
    /// It fails only where there is no memory. Where that was so in the middle of an exchange, each later call fails too.
    pub fn step<L: Link>(&mut self, link: &mut L) -> Result<Turn, AllocError>
        requires link { IsFor L.Link (held self.old) link.old }
        // The turn, what is held, and the link are as the next move says.
        ensures step { IfOk result (λ turn. Steps L.Link (held self.old) link.old turn (held self.new) link.new) }
        // Want of memory leaves the acts, the number heard and the properties as they were.
        ensures err { OnErr result (GivesUp L.Link (held self.old) (move_request (move_in (held self.old))) link.old (held self.new) link.new) }
        // It stops only where the link's count of faults rose, or where it had stopped.
        ensures stopped { IfOk result (λ turn. StopsByFault L.Link (held self.old) link.old turn link.new) }
        // No reply of a link that tells is a bad one.
        ensures honest { IfOk result (λ turn. IsHonest L.Link link.old turn link.new) }
        // And it can be stepped again.
        ensures again { OnOk result (IsFor L.Link (held self.new) link.new) }
    {
        self.state.step(link)
    }
}
