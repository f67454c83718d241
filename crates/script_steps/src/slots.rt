ghost use Rattle.std.specs.Prelude.{◌≡◌, ◌<◌, ℕ, ◌==◌, length, None, option_copied, OnOk, if◌then◌else◌};
ghost use Rattle.script_steps.specs.Slots.{slot};

use std::alloc::{AllocError, Global};

/// What is kept for documents, by their numbers.
#[derive(Drop)]
pub(crate) struct Slots<T> {
    slots: Vec<Option<T>>,
}

impl<T: Drop> Slots<T> {
    /// Nothing for any document.
    pub(crate) fn new(alloc: Global) -> Slots<T>
        ensures { (d : ℕ) → slot result.slots.items d ≡ None }
    {
        Slots {
            slots: Vec::new(alloc),
        }
    }

    /// What is kept for a document.
    pub(crate) fn get(&self, doc: u32) -> Option<&T>
        ensures { option_copied result ≡ slot self.now.slots.items doc }
    {
        match self.slots.get(doc as usize) {
            Some(Some(item)) => Some(item),
            Some(None) => None,
            None => None,
        }
    }

    /// Makes room for a document. What is kept stays.
    pub(crate) fn make_room(&mut self, doc: u32) -> Result<(), AllocError>
        ensures room { OnOk result (doc < length self.new.slots.items) }
        ensures same { (d : ℕ) → slot self.new.slots.items d ≡ slot self.old.slots.items d }
    {
        while self.slots.len() <= doc as usize {
            self.slots.push(None)?;
        }
        Ok(())
    }

    /// Takes what is kept for a document out.
    pub(crate) fn take(&mut self, doc: u32) -> Option<T>
        ensures value { result ≡ slot self.old.slots.items doc }
        ensures rest { (d : ℕ) → slot self.new.slots.items d ≡ (if d == doc then None else slot self.old.slots.items d) }
        ensures room { length self.new.slots.items ≡ length self.old.slots.items }
    {
        let at = doc as usize;
        if at < self.slots.len() {
            let place = &mut self.slots[at];
            return place.take();
        }
        None
    }

    /// Keeps an item, or none, for a document.
    pub(crate) fn put(&mut self, doc: u32, item: Option<T>)
        requires { doc < length self.old.slots.items }
        ensures { (d : ℕ) → slot self.new.slots.items d ≡ (if d == doc then item else slot self.old.slots.items d) }
    {
        self.slots[doc as usize] = item;
    }
}
