ghost use Rattle.std.specs.Prelude.{◌≡◌, ◌++◌, ◌∷◌, [], OnOk, OnErr};
ghost use Rattle.turnstile_rows.specs.Made.{made, AddsOne, IsPass, seen_of};

use crate::log::{Item, Log};
use std::alloc::AllocError;
use std::sync::Wait;
use turnstile::{Pass, Turnstile};

/// A seat's way to the log.
pub struct Link<'a, R: Wait> {
    rt: &'a R,
    gate: &'a Turnstile<Log>,
    pass: Pass<Log>,
    seat: u16,
    ghost ours: { IsPass gate.now.id seat pass },
}

impl<'a, R: Wait> Link<'a, R> {
    pub fn new(rt: &'a R, gate: &'a Turnstile<Log>, pass: Pass<Log>, seat: u16) -> Link<'a, R>
        requires { IsPass gate.now.id seat pass }
        ensures { (result.pass ≡ pass) × (result.seat ≡ seat) × (result.gate.now ≡ gate.entry.now) }
    {
        Link {
            rt,
            gate,
            pass,
            seat,
        }
    }

    /// An exchange that adds one item to what it found. What the seat added is then what it had added, and the value; at `Err`
    /// it is what it had added.
    pub fn add(&mut self, value: u64) -> Result<(), AllocError>
        ensures same { (self.new.seat ≡ self.old.seat) × (self.new.gate.now ≡ self.old.gate.now) }
        ensures ok { OnOk result (made self.new.seat (seen_of self.new.pass) ≡ made self.old.seat (seen_of self.old.pass) ++ value ∷ []) }
        ensures exchange { OnOk result (AddsOne self.old.seat value self.old.pass.seen self.new.pass.seen) }
        ensures err { OnErr result (made self.new.seat (seen_of self.new.pass) ≡ made self.old.seat (seen_of self.old.pass)) }
    {
        let mut held = self.gate.enter(self.rt, &mut self.pass);
        let item = Item {
            by: self.seat,
            value,
        };
        let outcome = held.state().add(item);
        self.gate.leave(&mut self.pass, held);
        outcome
    }

    /// An exchange that adds nothing.
    pub fn visit(&mut self)
        ensures same { (self.new.seat ≡ self.old.seat) × (self.new.gate.now ≡ self.old.gate.now) }
        ensures none { made self.new.seat (seen_of self.new.pass) ≡ made self.old.seat (seen_of self.old.pass) }
    {
        let held = self.gate.enter(self.rt, &mut self.pass);
        self.gate.leave(&mut self.pass, held);
    }

    pub fn into_pass(self) -> Pass<Log>
        ensures pass { result ≡ self.entry.pass }
        ensures ours { IsPass self.entry.gate.now.id self.entry.seat result }
    {
        let Link {
            rt: _,
            gate: _,
            pass,
            seat: _,
        } = self;
        pass
    }
}
