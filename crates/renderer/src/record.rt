ghost use Rattle.std.specs.Prelude.{◌≡◌, ◌∷◌, [], ◌<◌, ◌≤◌, ◌-◌, nat_le, length, reverse, OnOk, OnErr};
ghost use Rattle.agent_terms.specs.Limits.{most_acts};
ghost use Rattle.single_agent.specs.Lengths.{has_stopped, newest_length, is_lost, length_of};

use agent_terms::{Act, Answer};
use std::alloc::{AllocError, Global};
use std::marker::Model;

/// How many acts a record has at most.
const MOST_ACTS: usize = 40_000;

/// The acts of a renderer, of which there are at most 40,000.
///
/// Contracts see it as its acts, the newest first, and the number of acts for which room was made.
#[derive(Drop)]
pub struct Record {
    acts: Vec<Act>,
    room: u32,
}

impl Model for Record {
    ghost use Rattle.std.specs.Prelude.{reverse, ◌+◌, ◌≤◌, vec_len, vec_capacity};
    ghost use Rattle.agent_terms.specs.Limits.{most_acts};
    ghost use Rattle.renderer.specs.Acts.{RecordValue};
    ghost use Rattle.plain_data.specs.contracts.data.Data as data_type;
    ghost use Rattle.std.specs.Coded.{codes};

    ghost Value = { RecordValue };

    ghost coded = { Prim.hlevel (codes, data_type.the_row.coded) };

    ghost view = { λ r. record { acts = reverse r.acts.items; room = r.room } };

    ghost invariant = { λ r. (vec_len r.acts + r.room ≤ vec_capacity r.acts) × (vec_len r.acts ≤ most_acts) };
}

/// How many entries the renderer had heard once it had made the act.
fn length_of(act: &Act) -> u32
    ensures { result ≡ length_of act.now }
{
    match act {
        Act::Step { at, .. } | Act::Task { at, .. } | Act::LostTask { at } => *at,
    }
}

/// Whether the link failed at the act.
fn is_lost(act: &Act) -> bool
    ensures { result ≡ is_lost act.now }
{
    matches!(
        act,
        Act::Step {
            answer: Answer::Lost,
            ..
        } | Act::LostTask { .. }
    )
}

impl Record {
    /// A record without acts.
    pub fn new(alloc: Global) -> Self
        ensures acts { result.acts ≡ [] }
        ensures room { result.room ≡ 0 }
    {
        Record {
            acts: Vec::new(alloc),
            room: 0,
        }
    }

    /// Makes room for one more act. After an `Err` the record is as before.
    pub fn reserve(&mut self) -> Result<(), AllocError>
        ensures acts { self.new.acts ≡ self.old.acts }
        ensures room { OnOk result (0 < self.new.room) }
    {
        self.acts.reserve(1)?;
        self.room = self.room.max(1);
        Ok(())
    }

    /// Adds an act, for which room was made.
    pub fn add(&mut self, act: Act)
        requires room { 0 < self.old.room }
        requires few { length self.old.acts < most_acts }
        ensures acts { self.new.acts ≡ act ∷ self.old.acts }
    {
        self.acts.push_reserved(act);
        self.room -= 1;
    }

    /// Whether there are as many acts as there may be. It takes no memory.
    pub fn is_full(&self) -> bool
        ensures { result ≡ nat_le most_acts (length self.now.acts) }
    {
        self.acts.len() >= MOST_ACTS
    }

    /// Whether the newest act was lost. It takes no memory.
    pub fn has_stopped(&self) -> bool
        ensures { result ≡ has_stopped self.now.acts }
    {
        match self.acts.last() {
            Some(act) => is_lost(act),
            None => false,
        }
    }

    /// How many entries the renderer had heard at the newest act. It takes no memory.
    pub fn newest_length(&self) -> u32
        ensures { result ≡ newest_length self.now.acts }
    {
        match self.acts.last() {
            Some(act) => length_of(act),
            None => 0,
        }
    }

    /// The acts, the oldest first. It takes no memory.
    pub fn acts(&self) -> &[Act]
        ensures { reverse result.now ≡ self.now.acts }
    {
        &self.acts
    }
}
