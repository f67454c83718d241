use std::sync::atomic::{AtomicBool, AtomicU64, Ordering};

/// What a link asks before each call. It may keep the caller waiting, but comes back each time.
pub trait Gate {
    /// Lets the call of a renderer pass.
    fn pass(&self, renderer: u16, request: &[u8]);
}

/// Lets each call pass at once.
#[derive(Drop)]
pub struct OpenGate;

impl Gate for OpenGate {
    fn pass(&self, _renderer: u16, _request: &[u8]) {}
}

/// Lets each call pass at once, and sees whether the calls are those that were expected, in their order. No clause says what
/// it saw.
#[derive(Drop)]
pub struct CheckGate {
    expected: Vec<(u16, Vec<u8>)>,
    passes: AtomicU64,
    strayed: AtomicBool,
}

impl CheckGate {
    /// Expects these calls, each of a renderer with a request.
    pub fn new(expected: Vec<(u16, Vec<u8>)>) -> Self {
        CheckGate {
            expected,
            passes: AtomicU64::new(0),
            strayed: AtomicBool::new(false),
        }
    }

    /// How many calls came so far.
    pub fn passes(&self) -> u64 {
        self.passes.load(Ordering::SeqCst)
    }

    /// Whether just the expected calls came.
    pub fn met(&self) -> bool {
        self.passes() == self.expected.len() as u64 && !self.strayed.load(Ordering::SeqCst)
    }

    // Whether this call is expected behind so many others.
    fn expects(&self, place: u64, renderer: u16, request: &[u8]) -> bool {
        match self.expected.get(place as usize) {
            Some((caller, bytes)) => *caller == renderer && bytes.as_slice() == request,
            None => false,
        }
    }
}

impl Gate for CheckGate {
    fn pass(&self, renderer: u16, request: &[u8]) {
        let place = self.passes.fetch_add(1, Ordering::SeqCst);
        if !self.expects(place, renderer, request) {
            self.strayed.store(true, Ordering::SeqCst);
        }
    }
}
