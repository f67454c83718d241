//! A round of a race: a turnstile over the log, a thread for each seat, and the log that comes back.
ghost use Rattle.std.specs.Prelude.{◌≡◌, ◌<◌, ◌≤◌, ◌^◌, [], ℕ, map, length, vec_len, Some, slice_index_or, IfOk};
ghost use Rattle.std.specs.Vec.{vec_capacity};
ghost use Rattle.turnstile_rows.specs.Raced.{IsSet, AreSet, AreNew, HavePasses, added_of, pass_of};
ghost use Rattle.turnstile_rows.specs.Made.{made};

use crate::log::Log;
use crate::racer::{Racer, Work, turns};
use std::alloc::{AllocError, Global};
use std::sync::Wait;
use std::thread;
use std::thread::Threads;
use turnstile::{Pass, Turnstile};

// The racers in the order of the seats.
fn line_up(alloc: Global, passes: Vec<Pass<Log>>) -> Result<Vec<Racer>, AllocError>
    requires { vec_len passes < 2 ^ 16 }
    ensures passes { IfOk result (λ rs. map pass_of rs.items ≡ map Some passes.items) }
    ensures new { IfOk result (λ rs. AreNew rs.items) }
{
    let mut racers = Vec::with_capacity(alloc, passes.len())?;
    let mut number = 0u16;
    for pass in passes {
        let racer = Racer {
            pass: Some(pass),
            number,
            added: Vec::new(alloc),
        };
        racers.push_reserved(racer);
        number += 1;
    }
    Ok(racers)
}

// The passes and the records.
fn part(
    racers: Vec<Racer>,
    mut passes: Vec<Pass<Log>>,
    mut records: Vec<Vec<u64>>,
) -> (Vec<Pass<Log>>, Vec<Vec<u64>>)
    requires room { (passes.items ≡ []) × (records.items ≡ []) × (vec_len racers ≤ vec_capacity passes) × (vec_len racers ≤ vec_capacity records) }
    requires here { HavePasses racers.items }
    ensures passes { map Some result.0.items ≡ map pass_of racers.items }
    ensures records { result.1.items ≡ map added_of racers.items }
{
    for racer in racers {
        let Racer {
            pass,
            number: _,
            added,
        } = racer;
        let Some(pass) = pass else { unreachable!() };
        passes.push_reserved(pass);
        records.push_reserved(added);
    }
    (passes, records)
}

// Each racer takes its turns in a thread of its own.
fn round<R: Threads + Wait + Sync>(rt: &R, gate: &Turnstile<Log>, racers: &mut [Racer], work: Work)
    requires set { AreSet gate.now.id racers.old }
    requires every { 0 < work.every }
    ensures length { length racers.new ≡ length racers.old }
    ensures set { AreSet gate.now.id racers.new }
{
    let threads = racers.len();
    if threads == 0 {
        return;
    }
    thread::for_each_mut(
        rt,
        racers,
        threads,
        &|_i: usize, racer: &mut Racer|
            requires { IsSet gate.now.id racer.old × (0 < work.every) }
            ensures ready { IsSet gate.entry.now.id racer.new }
            ensures number { racer.new.number ≡ racer.old.number }
        { turns(rt, gate, racer, work) },
    );
}

/// The log after all seats took their turns, and what each seat noted of what it added: that is what the log has of the seat.
pub fn run_race<R: Threads + Wait + Sync>(
    rt: &R,
    alloc: Global,
    log: Log,
    seats: u16,
    work: Work,
) -> Result<(Log, Vec<Vec<u64>>), AllocError>
    requires seats { 0 < seats }
    requires every { 0 < work.every }
    requires empty { log.items.items ≡ [] }
    ensures count { IfOk result (λ r. length r.1.items ≡ seats) }
    ensures records { IfOk result (λ r. (k : ℕ) (d : _) → k < seats → (slice_index_or r.1.items k d).items ≡ made k r.0.items.items) }
{
    let Ok((gate, passes)) = Turnstile::new(alloc, log, seats) else {
        return Err(AllocError);
    };
    let mut racers = line_up(alloc, passes)?;
    round(rt, &gate, racers.as_mut_slice(), work);
    let room = racers.len();
    let passes = Vec::with_capacity(alloc, room)?;
    let records = Vec::with_capacity(alloc, room)?;
    let (passes, records) = part(racers, passes, records);
    let log = gate.close(passes);
    Ok((log, records))
}
