ghost use Rattle.std.specs.Prelude.{◌≡◌, ◌∷◌, [], ◌<◌, ◌≤◌, ◌-◌, OnOk, OnErr, IfOk};
ghost use Rattle.desk.specs.History.{told_in};

use crate::telling::Telling;
use std::alloc::{AllocError, Global};
use std::marker::Model;

/// How much of the log each renderer was told, and when.
///
/// Contracts see the tellings, the newest first.
#[derive(Drop)]
pub(crate) struct Tellings {
    all: Vec<Telling>,
    /// For so many more there is room.
    room: u32,
    /// For each renderer, how much it was told last.
    last: Vec<u32>,
}

impl Model for Tellings {
    ghost use Rattle.std.specs.Prelude.{◌≡◌, ◌+◌, ◌≤◌, ℕ, reverse, vec_len, vec_capacity, get_or};
    ghost use Rattle.desk.specs.Books.{TellingsValue};
    ghost use Rattle.desk.specs.History.{told_in};

    ghost Value = { TellingsValue };

    ghost view = { λ t. record { told = reverse t.all.items; renderers = vec_len t.last; room = t.room } };

    ghost invariant = { λ t. (vec_len t.all + t.room ≤ vec_capacity t.all) × ((r : ℕ) → get_or t.last.items r 0 ≡ told_in (reverse t.all.items) r) };
}

impl Tellings {
    /// None yet.
    pub(crate) fn new(alloc: Global, renderers: u16) -> Result<Self, AllocError>
        ensures { IfOk result (λ t. t ≡ record { told = []; renderers = renderers; room = 0 }) }
    {
        let mut last = Vec::new(alloc);
        for _renderer in 0..renderers {
            last.push(0)?;
        }
        Ok(Tellings {
            all: Vec::new(alloc),
            room: 0,
            last,
        })
    }

    /// Makes room for one.
    pub(crate) fn reserve(&mut self) -> Result<(), AllocError>
        ensures told { self.new.told ≡ self.old.told }
        ensures renderers { self.new.renderers ≡ self.old.renderers }
        ensures room { OnOk result (0 < self.new.room) }
    {
        self.all.reserve(1)?;
        self.room = self.room.max(1);
        Ok(())
    }

    /// How much a renderer was told. It takes no memory.
    pub(crate) fn told(&self, renderer: u16) -> u32
        ensures { result ≡ told_in self.now.told renderer }
    {
        self.last.get(renderer as usize).copied().unwrap_or(0)
    }

    /// Adds one, for which there is room.
    pub(crate) fn add(&mut self, telling: Telling)
        requires room { 0 < self.old.room }
        requires seat { telling.renderer < self.old.renderers }
        ensures told { self.new.told ≡ telling ∷ self.old.told }
        ensures renderers { self.new.renderers ≡ self.old.renderers }
    {
        self.last[telling.renderer as usize] = telling.upto;
        self.all.push_reserved(telling);
        self.room -= 1;
    }
}
