//! Laws of exchanges over links. Each function does nothing: its contract is the law.
ghost use Rattle.std.specs.Prelude.{◌≡◌, ◌≤◌, ◌-◌, ◌^◌, ℕ, List, Option, None, true, false};
ghost use Rattle.agent_terms.specs.declared.request.ReplyOutcome.{ReplyOutcome};
ghost use Rattle.agent_terms.specs.declared.request.Request.{Request};
ghost use Rattle.agent_terms.specs.declared.request.Request.TheVariants.{More};
ghost use Rattle.link_exchange.specs.Calls.{Course, Exchanges, Told, Fails, Strays};
ghost use Rattle.link_laws.specs.Faring.{Fares};
ghost use Rattle.link_laws.specs.Playing as play;
ghost use Rattle.link_laws.specs.Standing.{Stands, HasFitLog};
ghost use Rattle.link_laws.specs.Talking.{HasHeard, Talks};
ghost use Rattle.link_port.specs.Direct as direct;
ghost use Rattle.link_port.specs.Failing as failing;
ghost use Rattle.link_port.specs.Gated as gate;
ghost use Rattle.link_port.specs.declared.direct.DirectLink as links;
ghost use Rattle.link_port.specs.declared.failing.FailingLink as fallible;
ghost use Rattle.link_port.specs.declared.gated.GatedLink as gates;
ghost use Rattle.link_wire.specs.Links.{Pending, is_fit};
ghost use Rattle.link_wire.specs.Requests.{IsRequest};
ghost use Rattle.tree_log.specs.declared.entry.Entry.{Entry};

use link_port::{DirectLink, FailingLink, Gate, GatedLink};
use link_wire::Link;
use tree_view::View;

/// Over a coordinator that no one else talks to: it decides once, on the request, and each call for the rest of the reply only tells the
/// next entries, until the renderer has heard all of the log. The exchange neither fails nor strays, and the link stays over the same
/// coordinator. Frames are to spell the log before the exchange and after it, as a coordinator says of its log.
pub fn an_exchange_over_a_coordinator<V: View + Drop>()
    ensures told { (l m : links.DirectLink V _) (q : Request) (now : List Entry) (outcome : ReplyOutcome) → IsRequest q →
        Stands (direct.seat l) (direct.below l) → HasFitLog (direct.below m) →
        Exchanges ⟦<DirectLink<'static, V> as Link>⟧ (direct.seat l) l (direct.heard l) None q (Told now outcome) m →
        HasHeard (direct.seat l) (direct.below l) (direct.below m) q now outcome }
    ensures fails { (l m : links.DirectLink V _) (q : Request) →
        Exchanges ⟦<DirectLink<'static, V> as Link>⟧ (direct.seat l) l (direct.heard l) None q Fails m → ⊥ }
    ensures strays { (l m : links.DirectLink V _) (q : Request) (place : ℕ) → IsRequest q → is_fit (direct.seat l) (direct.heard l) q ≡ true →
        direct.pending l ≡ None →
        Exchanges ⟦<DirectLink<'static, V> as Link>⟧ (direct.seat l) l (direct.heard l) None q (Strays place) m → ⊥ }
    ensures same { (r : ℕ) (l m : links.DirectLink V _) (heard : List Entry) (pending : Option Pending) (q : Request) (course : Course) →
        Exchanges ⟦<DirectLink<'static, V> as Link>⟧ r l heard pending q course m → direct.IsSame l m }
{}

/// An exchange behind a gate is one of the link inside, and ends as that does. The link stays over the same one.
pub fn an_exchange_behind_a_gate<L: Link, G: Gate>()
    ensures inside { (r : ℕ) (l m : gates.GatedLink L G) (heard : List Entry) (pending : Option Pending) (q : Request) (course : Course) →
        Exchanges ⟦<GatedLink<'static, L, G> as Link>⟧ r l heard pending q course m →
        Exchanges L.Link r (gate.inside l) heard pending q course (gate.inside m) }
    ensures same { (r : ℕ) (l m : gates.GatedLink L G) (heard : List Entry) (pending : Option Pending) (q : Request) (course : Course) →
        Exchanges ⟦<GatedLink<'static, L, G> as Link>⟧ r l heard pending q course m → gate.IsSame l m }
{}

/// How an exchange ends over a link that fails at one call, and hasn't failed yet. The link inside counts its faults to 2^64 - 1 at
/// most, as each link does.
pub fn an_exchange_over_a_failing_link<L: Link>()
    ensures fares { ((x : L) → L.faults x ≤ 2 ^ 64 - 1) →
        (r : ℕ) (l m : fallible.FailingLink L) (heard : List Entry) (pending : Option Pending) (q : Request) (course : Course) →
        (q ≡ More → ⊥) → failing.has_failed l ≡ false →
        Exchanges ⟦<FailingLink<'static, L> as Link>⟧ r l heard pending q course m →
        Fares L.Link r l heard pending q m course }
    ensures same { (r : ℕ) (l m : fallible.FailingLink L) (heard : List Entry) (pending : Option Pending) (q : Request) (course : Course) →
        Exchanges ⟦<FailingLink<'static, L> as Link>⟧ r l heard pending q course m → failing.IsSame l m }
{}

/// Put together: how an exchange ends over a link that was just made, that fails at one call, and that passes a gate to a coordinator.
/// It never strays, and the link stays over the same coordinator.
pub fn an_exchange_in_a_play<V: View + Drop, G: Gate>()
    ensures ends { (l m : fallible.FailingLink (gates.GatedLink (links.DirectLink V _) G)) (q : Request) (course : Course) →
        play.IsReady l q → IsRequest q → (q ≡ More → ⊥) → HasFitLog (play.below m) →
        Exchanges ⟦<FailingLink<'static, GatedLink<'static, DirectLink<'static, V>, G>> as Link>⟧ (play.seat l) l (play.heard l) None q course m →
        Talks (play.seat l) (failing.number l) (failing.is_served l) (play.below l) (play.below m) q (failing.calls m) course }
    ensures strays { (l m : fallible.FailingLink (gates.GatedLink (links.DirectLink V _) G)) (q : Request) (place : ℕ) →
        play.IsReady l q → IsRequest q → (q ≡ More → ⊥) →
        Exchanges ⟦<FailingLink<'static, GatedLink<'static, DirectLink<'static, V>, G>> as Link>⟧ (play.seat l) l (play.heard l) None q (Strays place) m → ⊥ }
    ensures same { (r : ℕ) (l m : fallible.FailingLink (gates.GatedLink (links.DirectLink V _) G)) (heard : List Entry) (pending : Option Pending)
        (q : Request) (course : Course) →
        Exchanges ⟦<FailingLink<'static, GatedLink<'static, DirectLink<'static, V>, G>> as Link>⟧ r l heard pending q course m → play.IsSame l m }
{}
