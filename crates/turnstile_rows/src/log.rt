ghost use Rattle.std.specs.Prelude.{◌≡◌, ◌++◌, ◌∷◌, [], OnOk, OnErr};

use std::alloc::AllocError;
use turnstile::Grows;

/// A number, and the seat that added it.
#[derive(Clone, Copy, Drop)]
pub struct Item {
    pub by: u16,
    pub value: u64,
}

/// What the seats share.
#[derive(Drop)]
pub struct Log {
    pub items: Vec<Item>,
}

impl Grows for Log {
    ghost use Rattle.std.specs.Prelude.{Some};

    type Item = Item;

    ghost names = { λ item. Some item.by };

    ghost history = { λ log. log.items.items };
}

impl Log {
    pub fn add(&mut self, item: Item) -> Result<(), AllocError>
        ensures ok { OnOk result (self.new.items.items ≡ self.old.items.items ++ item ∷ []) }
        ensures err { OnErr result (self.new.items.items ≡ self.old.items.items) }
    {
        self.items.reserve(1)?;
        self.items.push_reserved(item);
        Ok(())
    }
}
