// The entries that a reply tells, as contracts see them. They take no memory, and the methods do nothing.
ghost use Rattle.std.specs.Prelude.{◌≡◌, List, [], ◌∷◌, ◌++◌};
ghost use Rattle.std.specs.Borrow.{ftrue};
ghost use Rattle.std.specs.Coded.{codes};
ghost use Rattle.plain_data.specs.contracts.data.Data as plain;
ghost use Rattle.tree_log.specs.declared.entry.Entry.{Entry};

use origin_core::PageUrl;
use std::marker::Model;
use tree_log::Entry;

#[derive(Drop)]
pub(crate) struct News {
    pub(crate) ghost entries: { List Entry } by { Prim.hlevel (codes, plain.the_row.coded) },
}

impl Model for News {
    ghost also_owns = { λ _. ftrue };
}

// An entry, and the URL that is told in place of its own, where one is.
#[derive(Clone, Copy)]
pub(crate) struct Shown<'a> {
    pub(crate) entry: &'a Entry,
    pub(crate) url: Option<&'a PageUrl>,
}

impl News {
    ghost use Rattle.reply_writing.specs.Telling.{shown};

    pub(crate) fn new() -> News
        ensures { result.entries ≡ [] }
    {
        News {}
    }

    pub(crate) fn with(&self, _shown: &Shown<'_>) -> News
        ensures { result.entries ≡ self.now.entries ++ shown _shown.now ∷ [] }
    {
        News {}
    }
}
