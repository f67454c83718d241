ghost use Rattle.std.specs.Prelude.{ℕ, List, Option, Result};
ghost use Rattle.tree_log.specs.declared.entry.Entry.{Entry};
ghost use Rattle.link_wire.specs.declared.link.LinkError.{LinkError};
ghost use Rattle.link_wire.specs.Links.{Pending, AnswersFit, Hears, GoesOn, Stays, FailsByFault, Counts};

/// Why a link gave no reply.
#[derive(Clone, Copy, Debug, PartialEq, Eq)]
pub enum LinkError {
    /// The link failed. Whether the request was served isn't known.
    Failed,
    /// Memory ran out.
    NoMemory,
}

/// A renderer's way to the coordinator: bytes of a request in, bytes of its reply out.
///
/// A step is a call, and the calls of [`Request::More`](crate::Request) behind it until a reply has no more to tell.
///
/// Contracts see the renderer and the entries heard so far, newest first, where the link tells them; the step that is
/// under way, if a reply left more to be told: the outcome of its first reply, and how many entries had been heard
/// before it; a count of faults, which never falls and stands still at 2^64 - 1; and a relation between the link before
/// a call, the request, the result with the reply, and the link after it, which each link says of itself.
pub trait Link {
    ghost renderer: { Self → Option ℕ };

    ghost heard: { Self → Option (List Entry) };

    ghost pending: { Self → Option Pending };

    ghost faults: { Self → ℕ };

    ghost relation: { Self → List ℕ → Result (Unit {0}) LinkError → List ℕ → Self → Type 0 };

    /// Sends a request. After `Ok` the reply is in `reply`, in place of what was there.
    ///
    /// To a request that is in range, of a document of its renderer or of none, a link that tells answers `Ok` only
    /// with a reply to it: its news follow what was heard, and once a reply of the step has no more to tell, what the
    /// step's outcome names is there. `Failed` comes only where the count of faults rose.
    fn call(&mut self, request: &[u8], reply: &mut Vec<u8>) -> Result<(), LinkError>
        ensures relation { relation self.old request.now result reply.new.items self.new }
        ensures answers { AnswersFit (renderer self.old) (heard self.old) (pending self.old) request.now result reply.new.items }
        ensures heard { Hears (heard self.old) result reply.new.items (heard self.new) }
        ensures pending { GoesOn (heard self.old) (pending self.old) request.now result reply.new.items (pending self.new) }
        ensures renderer { Stays (renderer self.old) (renderer self.new) }
        ensures failed { FailsByFault (faults self.old) (faults self.new) result }
        ensures count { Counts (faults self.old) (faults self.new) };
}
