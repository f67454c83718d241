ghost use Rattle.std.specs.Prelude.{◌≡◌, ◌∷◌, [], ◌<◌, ◌≤◌, ◌-◌, ◌^◌, length, reverse, slice_get, OnOk, OnErr, IsOk, IfSome};
ghost use Rattle.std.specs.Option.{option_copied};
ghost use Rattle.tree_log.specs.Log.{entry_at};
ghost use Rattle.tree_log.specs.Range.{IsInRange, AreInRange, HasAscendingKeys};

use crate::entry::Entry;
use crate::range::know_entry;
use std::alloc::{AllocError, Global};
use std::marker::Model;

/// A list of entries that only grows, of at most 4,294,967,295 entries.
///
/// Contracts see it as its entries, the newest first, and the number of pushes for which room was reserved. Every
/// origin and URL in it is in range, as its type promises, and the keys of each record in posted data ascend.
#[derive(Drop)]
pub struct Log {
    entries: Vec<Entry>,
    room: u32,
}

impl Model for Log {
    ghost use Rattle.std.specs.Prelude.{reverse, ◌+◌, ◌≤◌, ◌<◌, ◌^◌, vec_len, vec_capacity};
    ghost use Rattle.tree_log.specs.Log.{LogValue};
    ghost use Rattle.tree_log.specs.Range.{AreInRange};
    ghost use Rattle.plain_data.specs.contracts.data.Data as data_type;
    ghost use Rattle.std.specs.Coded.{codes};

    ghost Value = { LogValue };

    ghost coded = { Prim.hlevel (codes, data_type.the_row.coded) };

    ghost view = { λ l. record { entries = reverse l.entries.items; room = l.room } };

    ghost invariant = { λ l. (vec_len l.entries + l.room ≤ vec_capacity l.entries) × (vec_len l.entries < 2 ^ 32) × AreInRange l.entries.items };
}

fn stored(entries: &Vec<Entry>, place: u32) -> Option<&Entry>
    ensures { option_copied result ≡ slice_get entries.now.items place }
{
    entries.get(place as usize)
}

impl Log {
    /// An empty log without room.
    pub fn new(alloc: Global) -> Self
        ensures entries { result.entries ≡ [] }
        ensures room { result.room ≡ 0 }
    {
        Log {
            entries: Vec::new(alloc),
            room: 0,
        }
    }

    /// Makes room for at least so many more entries. After an `Err` the log is as before.
    pub fn reserve(&mut self, more: u32) -> Result<(), AllocError>
        ensures entries { self.new.entries ≡ self.old.entries }
        ensures room { OnOk result (more ≤ self.new.room) }
        ensures kept { self.old.room ≤ self.new.room }
    {
        self.entries.reserve(more as usize)?;
        self.room = self.room.max(more);
        Ok(())
    }

    /// Appends an entry, in whose data the keys of each record ascend. After an `Err` the log is as before. With room it
    /// can't fail, and takes one from it.
    pub fn push(&mut self, entry: Entry) -> Result<(), AllocError>
        requires few { length self.old.entries < 2 ^ 32 - 1 }
        requires keys { HasAscendingKeys entry.what }
        ensures ok { OnOk result (self.new.entries ≡ entry ∷ self.old.entries) }
        ensures err { OnErr result (self.new.entries ≡ self.old.entries) }
        ensures room { self.new.room ≡ self.old.room - 1 }
        ensures reserved { 0 < self.old.room → IsOk result }
    {
        know_entry(&entry);
        if self.room > 0 {
            self.entries.push_reserved(entry);
            self.room -= 1;
            return Ok(());
        }
        self.entries.push(entry)?;
        Ok(())
    }

    /// The number of entries. It takes no memory.
    pub fn len(&self) -> u32
        ensures { result ≡ length self.now.entries }
    {
        self.entries.len() as u32
    }

    /// The entry at a place: `None` exactly where the place is not below the length. It takes no memory.
    pub fn at(&self, place: u32) -> Option<&Entry>
        ensures { option_copied result ≡ entry_at self.now.entries place }
    {
        stored(&self.entries, place)
    }

    /// The entries, the oldest first. It takes no memory.
    pub fn entries(&self) -> &[Entry]
        ensures value { reverse result.now ≡ self.now.entries }
        ensures range { AreInRange result.now }
    {
        &self.entries
    }
}
