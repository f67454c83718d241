ghost use Rattle.std.specs.Prelude.{◌≡◌, ◌<◌};
ghost use Rattle.turnstile_rows.specs.Raced.{IsSet};
ghost use Rattle.turnstile_rows.specs.Made.{made, seen_of};

use crate::link::Link;
use crate::log::Log;
use std::alloc::AllocError;
use std::sync::Wait;
use turnstile::{Pass, Turnstile};

/// How often each seat goes in, and that it adds an item each so many times, the first time among them.
#[derive(Clone, Copy, Drop)]
pub struct Work {
    pub rounds: u64,
    pub every: u64,
}

/// What one thread works on. The pass is away only while its link has it, and at the end.
#[derive(Drop)]
pub struct Racer {
    pub pass: Option<Pass<Log>>,
    pub number: u16,
    pub added: Vec<u64>,
}

// One exchange, which adds the number of items that the seat has added so far, or nothing.
fn exchange<R: Wait>(
    link: &mut Link<'_, R>,
    added: &mut Vec<u64>,
    adds: bool,
) -> Result<(), AllocError>
    requires { added.old.items ≡ made link.old.seat (seen_of link.old.pass) }
    ensures same { (link.new.seat ≡ link.old.seat) × (link.new.gate.now ≡ link.old.gate.now) }
    ensures record { added.new.items ≡ made link.new.seat (seen_of link.new.pass) }
{
    if !adds {
        link.visit();
        return Ok(());
    }
    added.reserve(1)?;
    let value = added.len() as u64;
    link.add(value)?;
    added.push_reserved(value);
    Ok(())
}

/// All turns of one seat. Where there is no memory it stops.
pub fn turns<R: Wait>(rt: &R, gate: &Turnstile<Log>, racer: &mut Racer, work: Work)
    requires set { IsSet gate.now.id racer.old }
    requires every { 0 < work.every }
    ensures ready { IsSet gate.now.id racer.new }
    ensures number { racer.new.number ≡ racer.old.number }
{
    let Some(pass) = racer.pass.take() else {
        unreachable!()
    };
    let mut link = Link::new(rt, gate, pass, racer.number);
    for round in 0..work.rounds {
        if exchange(&mut link, &mut racer.added, round % work.every == 0).is_err() {
            break;
        }
    }
    racer.pass = Some(link.into_pass());
}
