// One more entry.
ghost use Rattle.std.specs.Prelude.{◌≡◌, None, OnOk, OnErr, IsTrue};
ghost use Rattle.tree_log.specs.Admits.{admits};
ghost use Rattle.tree_view.specs.NewRows as new;
ghost use Rattle.tree_view.specs.Rows.{after_known};
ghost use Rattle.tree_view.specs.Shown.{known, tree_shown};

use crate::plain::new::{load_row, new_rows};
use crate::plain::rows::PlainView;
use std::alloc::AllocError;
use tree_log::{Entry, What};

impl PlainView {
    /// Applies one more entry. After an `Err` what is known is as before.
    pub(crate) fn apply_entry(&mut self, entry: &Entry) -> Result<(), AllocError>
        requires { IsTrue (admits (tree_shown self.old) entry.now) }
        ensures ok { OnOk result (known self.new ≡ after_known (known self.old) entry.now) }
        ensures err { OnErr result (known self.new ≡ known self.old) }
    {
        match new_rows(self.alloc, entry)? {
            Some(new) => {
                self.write_new(new)?;
                Ok(())
            }
            None => self.apply_change(entry),
        }
    }

    // An entry that makes no navigable.
    fn apply_change(&mut self, entry: &Entry) -> Result<(), AllocError>
        requires admitted { IsTrue (admits (tree_shown self.old) entry.now) }
        requires change { new.new_rows entry.now ≡ None }
        ensures ok { OnOk result (known self.new ≡ after_known (known self.old) entry.now) }
        ensures err { OnErr result (known self.new ≡ known self.old) }
    {
        match &entry.what {
            What::Drop { nav } => self.write_drop(*nav),
            What::Name { nav, name } => self.write_name(*nav, name.clone()?),
            What::Begin { nav, load } => {
                self.write_begin(*nav, load.doc, load_row(*nav, load)?)?;
            }
            What::Commit { nav, doc, .. } => self.write_commit(*nav, *doc),
            What::Fragment { doc, url, .. } => self.write_url(*doc, url.clone()?),
            What::Opener { nav, to } => self.write_opener(*nav, *to),
            What::Closing { nav } => self.write_closing(*nav),
            What::Gone { nav } => self.write_gone(*nav),
            What::Post { .. } => self.write_nothing(),
            What::Fire { .. } => self.write_nothing(),
            What::Lapse { .. } => self.write_nothing(),
            What::Lost { .. } => self.write_nothing(),
            What::Sync => self.write_nothing(),
            What::Hidden => self.write_nothing(),
            What::Domain { doc, domain } => self.write_domain(*doc, domain.clone()?),
            What::Open { .. } => {}
            What::Frame { .. } => {}
        }
        Ok(())
    }
}
