//! Gates, of whose answers no clause speaks, and each link over another.

ghost use Rattle.std.specs.Prelude.{None};

use crate::{CheckGate, DirectLink, FailingLink, Gate, GatedLink, OpenGate};
use desk::Desk;
use link_wire::{Link, LinkError};
use origin_core::page_spelled;
use std::alloc::{AllocError, Global};
use std::test::Fail;

/// The frames that ask for the next task, and for the rest of a reply.
const NEXT: [u8; 6] = [2, 0x01, 0, 0, 0, 0];

const MORE: [u8; 6] = [2, 0x0d, 0, 0, 0, 0];

/// The kinds of replies: it is done, a task is taken, and nothing waits.
const DONE: u8 = 0x41;

const TASK: u8 = 0x45;

const NOTHING: u8 = 0x46;

/// Answers that it is done where calls passed the gate, and else that nothing waits.
#[derive(Drop)]
struct Watcher<'a> {
    gate: &'a CheckGate,
}

impl Link for Watcher<'_> {
    ghost renderer = { λ _. None };

    ghost heard = { λ _. None };

    ghost pending = { λ _. None };

    ghost faults = { λ _. 0 };

    ghost relation = { λ _ _ _ _ _. Unit {0} };

    fn call(&mut self, _request: &[u8], reply: &mut Vec<u8>) -> Result<(), LinkError> {
        reply.clear();
        let kind = if self.gate.passes() > 0 {
            DONE
        } else {
            NOTHING
        };
        match reply.extend_from_slice(&[2, kind, 0, 0, 0, 0]) {
            Ok(()) => Ok(()),
            Err(_) => Err(LinkError::NoMemory),
        }
    }
}

// What threads share.
fn is_shared<G: Gate + Sync>(_gate: &G) -> bool {
    true
}

/// The calls that are expected: one of renderer 0, and then two of renderer 1.
fn expected(alloc: Global) -> Result<Vec<(u16, Vec<u8>)>, AllocError> {
    let mut calls = Vec::new(alloc);
    calls.push((0, NEXT.to_vec(alloc)?))?;
    calls.push((1, MORE.to_vec(alloc)?))?;
    calls.push((1, NEXT.to_vec(alloc)?))?;
    Ok(calls)
}

#[test]
fn a_gate_sees_each_call_first(rt: HostRuntime) -> Result<(), Fail> {
    let alloc = rt.alloc();
    let gate = CheckGate::new(expected(alloc)?);
    assert!(rt; is_shared(&gate) && is_shared(&OpenGate));
    let mut reply = Vec::new(alloc);
    let mut watcher = Watcher { gate: &gate };
    let mut first = GatedLink::new(&mut watcher, 0, &gate);
    assert_eq!(rt; first.call(&NEXT, &mut reply), Ok(()));
    assert_eq!(rt; reply.get(1).copied(), Some(DONE));
    let mut second = GatedLink::new(&mut watcher, 1, &gate);
    assert_eq!(rt; second.call(&MORE, &mut reply), Ok(()));
    assert!(rt; !gate.met());
    assert_eq!(rt; second.call(&NEXT, &mut reply), Ok(()));
    assert!(rt; gate.met());
    assert_eq!(rt; gate.passes(), 3);
    assert_eq!(rt; second.call(&NEXT, &mut reply), Ok(()));
    assert!(rt; !gate.met());
    Ok(())
}

#[test]
fn a_gate_tells_other_calls(rt: HostRuntime) -> Result<(), Fail> {
    let alloc = rt.alloc();
    let gate = CheckGate::new(expected(alloc)?);
    gate.pass(1, &NEXT);
    gate.pass(1, &MORE);
    gate.pass(1, &NEXT);
    assert_eq!(rt; gate.passes(), 3);
    assert!(rt; !gate.met());
    Ok(())
}

#[test]
fn a_link_fails_once(rt: HostRuntime) -> Result<(), Fail> {
    let alloc = rt.alloc();
    let gate = CheckGate::new(Vec::new(alloc));
    let mut reply = Vec::new(alloc);
    let mut watcher = Watcher { gate: &gate };
    let mut link = FailingLink::new(&mut watcher, 2, true);
    // Nothing waits.
    assert_eq!(rt; link.call(&NEXT, &mut reply), Ok(()));
    assert_eq!(rt; link.calls(), 0);
    gate.pass(0, &NEXT);
    assert_eq!(rt; link.call(&NEXT, &mut reply), Ok(()));
    assert_eq!(rt; link.call(&MORE, &mut reply), Ok(()));
    assert_eq!(rt; link.calls(), 1);
    assert_eq!(rt; link.call(&NEXT, &mut reply), Err(LinkError::Failed));
    assert!(rt; reply.is_empty());
    assert_eq!(rt; link.call(&NEXT, &mut reply), Ok(()));
    assert_eq!(rt; link.calls(), 3);
    // The next one isn't passed on.
    let mut gated = GatedLink::new(&mut watcher, 0, &OpenGate);
    let mut link = FailingLink::new(&mut gated, 1, false);
    assert_eq!(rt; link.call(&MORE, &mut reply), Ok(()));
    assert_eq!(rt; link.call(&NEXT, &mut reply), Err(LinkError::Failed));
    assert_eq!(rt; link.calls(), 0);
    assert_eq!(rt; watcher.call(&NEXT, &mut reply), Ok(()));
    Ok(())
}

#[test]
fn a_link_serves_its_renderer(rt: HostRuntime) -> Result<(), Fail> {
    let alloc = rt.alloc();
    let mut desk = Desk::new(alloc, 1, Vec::new(alloc))?;
    if let Some(url) = page_spelled(alloc, "https://a.test/")? {
        desk.start(url)?;
    }
    let mut reply = Vec::new(alloc);
    let mut link = DirectLink::new(&mut desk, 0);
    assert_eq!(rt; link.call(&NEXT, &mut reply), Ok(()));
    assert_eq!(rt; reply.get(1).copied(), Some(TASK));
    assert_eq!(rt; link.call(&NEXT, &mut reply), Ok(()));
    assert_eq!(rt; reply.get(1).copied(), Some(NOTHING));
    Ok(())
}
