ghost use Rattle.std.specs.Prelude.{◌≡◌, [], false, true, Ok, Err};
ghost use Rattle.link_wire.specs.declared.link.LinkError.TheVariants.{Failed};
ghost use Rattle.link_port.specs.Failing as spec;

use crate::spelled::{is_more, is_nothing};
use link_wire::{Link, LinkError};

/// A link that passes calls on to another, which it borrows, and fails at one of them.
///
/// It counts the calls that the link inside answers, but not those that ask for the rest of a reply, nor those to which
/// nothing waits. The call that fails is served, and its reply dropped; or it never reaches the link inside. From then on
/// this link tells no more what was heard.
#[derive(Drop)]
pub struct FailingLink<'a, L: Link> {
    inner: &'a mut L,
    number: u32,
    served: bool,
    calls: u32,
    failed: bool,
}

// Whether an answer counts as a call.
fn is_counted(request: &[u8], reply: &[u8]) -> bool
    ensures { result ≡ spec.is_counted request.now (Ok tt) reply.now }
{
    !is_more(request) && !is_nothing(reply)
}

impl<'a, L: Link> FailingLink<'a, L> {
    /// Fails at the call with this number, from 1; with the number 0 at none. Where `served`, the counted call with the number is
    /// passed on, and its reply dropped. Else the first call that doesn't ask for the rest of a reply, once one less were
    /// counted, isn't passed on.
    pub fn new(inner: &'a mut L, call: u32, served: bool) -> Self
        ensures inside { spec.inside result ≡ inner.old }
        ensures same { result.inner.ghost_name ≡ inner.entry.ghost_name }
        ensures number { spec.number result ≡ call }
        ensures served { spec.is_served result ≡ served }
        ensures calls { spec.calls result ≡ 0 }
        ensures failed { spec.has_failed result ≡ false }
    {
        FailingLink {
            inner,
            number: call,
            served,
            calls: 0,
            failed: false,
        }
    }

    /// How many calls were counted. It stays at 2^32 - 1 once it is there. It takes no memory.
    pub fn calls(&self) -> u32
        ensures { result ≡ spec.calls self.now }
    {
        self.calls
    }

    // Whether the next call that counts is the one that fails.
    fn is_due(&self) -> bool
        ensures { result ≡ spec.is_due self.now }
    {
        !self.failed && self.number > 0 && self.calls == self.number - 1
    }

    // Whether the call fails, and isn't passed on.
    fn refuses(&self, request: &[u8]) -> bool
        ensures { result ≡ spec.refuses self.now request.now }
    {
        !self.served && self.is_due() && !is_more(request)
    }

    // Fails, without a reply.
    fn fail(&mut self, reply: &mut Vec<u8>) -> Result<(), LinkError>
        ensures result { result ≡ Err Failed }
        ensures reply { reply.new.items ≡ [] }
        ensures same { spec.IsSame self.old self.new }
        ensures inside { spec.inside self.new ≡ spec.inside self.old }
        ensures calls { spec.calls self.new ≡ spec.calls self.old }
        ensures failed { spec.has_failed self.new ≡ true }
    {
        reply.clear();
        self.failed = true;
        Err(LinkError::Failed)
    }
}

impl<L: Link> Link for FailingLink<'_, L> {
    ghost use Rattle.link_port.specs.Failing.{inside, has_failed, unless, fault_count, Behaves};

    ghost renderer = { λ link. unless (has_failed link) (L.renderer (inside link)) };

    ghost heard = { λ link. unless (has_failed link) (L.heard (inside link)) };

    ghost pending = { λ link. unless (has_failed link) (L.pending (inside link)) };

    ghost faults = { λ link. fault_count (has_failed link) (L.faults (inside link)) };

    ghost relation = { Behaves L.relation };

    /// Calls the link inside, unless this call is the one that fails.
    fn call(&mut self, request: &[u8], reply: &mut Vec<u8>) -> Result<(), LinkError> {
        if self.refuses(request) {
            return self.fail(reply);
        }
        self.inner.call(request, reply)?;
        if !is_counted(request, reply) {
            return Ok(());
        }
        let drops = self.served && self.is_due();
        self.calls = self.calls.saturating_add(1);
        if drops {
            return self.fail(reply);
        }
        Ok(())
    }
}
