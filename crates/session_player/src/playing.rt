ghost use Rattle.std.specs.Prelude.{◌≡◌, ◌<◌, ◌≤◌, ◌^◌, ◌-◌, [], List, ℕ, length, IfOk, Some, vec_len, get_or, All};
ghost use Rattle.session_player.specs.declared.playing.Round.{Round as RoundValue};
ghost use Rattle.single_agent.specs.Turns.{Turned, next_renderer};
ghost use Rattle.agent_terms.specs.Built.{AreBuilt};
ghost use Rattle.agent_terms.specs.Limits.{most_starts};
ghost use Rattle.single_agent.specs.Session.{starts_of};
ghost use Rattle.session_player.specs.Serves.{ledger};
ghost use Rattle.session_player.specs.Underway.{AreNumbered, IsUnderway, TurnEnds, AtRound, RoundEnds, OrderEnds, IsPlay, AreFresh, seats_of};

use crate::desk::Desk;
use crate::replica::Replica;
use crate::worker::{Turn, Worker};
use agent_terms::{Ending, Session};
use std::alloc::{AllocError, Global};

/// What a round of turns, or the turns of the order, came to.
#[derive(Clone, Copy, Debug)]
pub enum Round {
    /// The play goes on.
    Acted,
    /// The play ended.
    Ended(Ending),
    /// The coordinator told what can't follow.
    BadReply,
}

/// One turn of the renderer with this number.
fn turn<V: Replica>(
    alloc: Global,
    desk: &mut Desk<V>,
    workers: &mut Vec<Worker<V>>,
    session: &Session,
    number: usize,
) -> Result<Turn, AllocError>
    requires within { number < vec_len workers.old }
    requires some { 0 < session.now.renderers }
    requires seats { vec_len desk.old.told ≡ vec_len workers.old }
    requires built { AreBuilt session.now }
    requires numbered { AreNumbered (seats_of V.View workers.old.items) }
    ensures count { vec_len workers.new ≡ vec_len workers.old }
    ensures seats { vec_len desk.new.told ≡ vec_len desk.old.told }
    ensures numbered { AreNumbered (seats_of V.View workers.new.items) }
    ensures kept { IfOk result (λ turn. (turns : List Turned)
        → IsUnderway session.now turns (ledger desk.old.log.entries desk.old.told.items) (seats_of V.View workers.old.items)
        → next_renderer session.now turns ≡ Some number
        → TurnEnds session.now turns number (seats_of V.View workers.old.items) turn
        (ledger desk.new.log.entries desk.new.told.items) (seats_of V.View workers.new.items)) }
{
    workers[number].step(alloc, desk, session)
}

/// The end of a play at the turn of a renderer whose record is full.
fn acts_full(number: usize) -> Round
    requires { number < 2 ^ 16 }
    ensures { result ≡ Round.Ended (Ending.ActsFull number) }
{
    Round::Ended(Ending::ActsFull {
        renderer: number as u16,
    })
}

/// A turn of each renderer, by number.
fn play_round<V: Replica>(
    alloc: Global,
    desk: &mut Desk<V>,
    workers: &mut Vec<Worker<V>>,
    session: &Session,
) -> Result<Round, AllocError>
    requires some { 0 < session.now.renderers }
    requires few { vec_len workers.old < 2 ^ 16 }
    requires seats { vec_len desk.old.told ≡ vec_len workers.old }
    requires built { AreBuilt session.now }
    requires numbered { AreNumbered (seats_of V.View workers.old.items) }
    ensures count { vec_len workers.new ≡ vec_len workers.old }
    ensures seats { vec_len desk.new.told ≡ vec_len desk.old.told }
    ensures numbered { AreNumbered (seats_of V.View workers.new.items) }
    ensures kept { IfOk result (λ round. (turns : List Turned)
        → IsUnderway session.now turns (ledger desk.old.log.entries desk.old.told.items) (seats_of V.View workers.old.items)
        → AtRound session.now turns
        → RoundEnds session.now (seats_of V.View workers.old.items) round (ledger desk.new.log.entries desk.new.told.items) (seats_of V.View workers.new.items)) }
{
    let mut acted = false;
    'turns: for number in 0..workers.len() {
        match turn(alloc, desk, workers, session, number)? {
            Turn::Acted => acted = true,
            Turn::Idle => {}
            Turn::Full => return Ok(Round::Ended(Ending::LogFull)),
            Turn::ActsFull => return Ok(acts_full(number)),
            Turn::BadReply => return Ok(Round::BadReply),
        }
    }
    Ok(if acted {
        Round::Acted
    } else {
        Round::Ended(Ending::Done)
    })
}

/// The turns of the order.
fn play_order<V: Replica>(
    alloc: Global,
    desk: &mut Desk<V>,
    workers: &mut Vec<Worker<V>>,
    session: &Session,
) -> Result<Round, AllocError>
    requires some { 0 < session.now.renderers }
    requires few { vec_len workers.old < 2 ^ 16 }
    requires order { All (λ k. k < vec_len workers.old) session.now.order }
    requires seats { vec_len desk.old.told ≡ vec_len workers.old }
    requires built { AreBuilt session.now }
    requires numbered { AreNumbered (seats_of V.View workers.old.items) }
    ensures count { vec_len workers.new ≡ vec_len workers.old }
    ensures seats { vec_len desk.new.told ≡ vec_len desk.old.told }
    ensures numbered { AreNumbered (seats_of V.View workers.new.items) }
    ensures kept { IfOk result (λ round.
        IsUnderway session.now [] (ledger desk.old.log.entries desk.old.told.items) (seats_of V.View workers.old.items)
        → OrderEnds session.now round (ledger desk.new.log.entries desk.new.told.items) (seats_of V.View workers.new.items)) }
{
    'order: for number in session.order.as_slice() {
        match turn(alloc, desk, workers, session, usize::from(*number))? {
            Turn::Acted => {}
            Turn::Idle => {}
            Turn::Full => return Ok(Round::Ended(Ending::LogFull)),
            Turn::ActsFull => return Ok(acts_full(usize::from(*number))),
            Turn::BadReply => return Ok(Round::BadReply),
        }
    }
    Ok(Round::Acted)
}

/// What a play left.
#[derive(Drop)]
pub struct Run<V: Replica> {
    pub desk: Desk<V>,
    pub workers: Vec<Worker<V>>,
    pub ending: Ending,
}

/// The coordinator with its start windows.
fn opened<V: Replica>(alloc: Global, session: &Session) -> Result<Desk<V>, AllocError>
    requires some { 0 < session.now.renderers }
    requires starts { length session.now.start ≤ most_starts }
    ensures log { IfOk result (λ desk. desk.log.entries ≡ starts_of session.now) }
    ensures count { IfOk result (λ desk. vec_len desk.told ≡ session.now.renderers) }
    ensures told { IfOk result (λ desk. (r : ℕ) → get_or desk.told.items r 0 ≡ 0) }
{
    let mut desk = Desk::new(alloc, session.renderers)?;
    'starts: for url in session.start.as_slice() {
        desk.start(alloc, session, url)?;
    }
    Ok(desk)
}

/// The workers, by number.
fn hired<V: Replica>(alloc: Global, renderers: u16) -> Result<Vec<Worker<V>>, AllocError>
    ensures count { IfOk result (λ workers. length workers.items ≡ renderers) }
    ensures fresh { IfOk result (λ workers. AreFresh (seats_of V.View workers.items)) }
{
    let mut workers = Vec::new(alloc);
    'numbers: for number in 0..renderers {
        workers.push(Worker::new(alloc, number))?;
    }
    Ok(workers)
}

/// Plays a session to its end.
pub fn play<V: Replica>(alloc: Global, session: &Session) -> Result<Run<V>, AllocError>
    requires some { 0 < session.now.renderers }
    requires starts { length session.now.start ≤ most_starts }
    requires order { All (λ k. k < session.now.renderers) session.now.order }
    requires built { AreBuilt session.now }
    ensures { IfOk result (λ run. IsPlay session.now run.ending run.desk.log.entries (seats_of V.View run.workers.items)) }
{
    let mut desk = opened::<V>(alloc, session)?;
    let mut workers = hired::<V>(alloc, session.renderers)?;
    match play_order(alloc, &mut desk, &mut workers, session)? {
        Round::Acted => {}
        Round::Ended(ending) => {
            return Ok(Run {
                desk,
                workers,
                ending,
            });
        }
        Round::BadReply => unreachable!(),
    }
    'rounds: loop {
        match play_round(alloc, &mut desk, &mut workers, session)? {
            Round::Acted => {}
            Round::Ended(ending) => {
                return Ok(Run {
                    desk,
                    workers,
                    ending,
                });
            }
            Round::BadReply => unreachable!(),
        }
    }
}
