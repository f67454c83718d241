// Which navigables were discarded, a mark for each.
ghost use Rattle.std.specs.Prelude.{◌≡◌, ◌≤◌, ◌<◌, ◌++◌, ℕ, All, length, set, true, vec_capacity};
ghost use Rattle.indexed_view.specs.Families.{children_in};
ghost use Rattle.indexed_view.specs.Live.{live};
ghost use Rattle.indexed_view.specs.Marks.{AreMarks, IsReady, IsUnderWay, count, if_new, mark_all, new_of};

use crate::families::Family;
use tree_view::View;

/// Marks a navigable. One that was not marked waits from here on, so that what is below it is marked too.
fn mark(marks: &mut Vec<bool>, queue: &mut Vec<u32>, nav: u32)
    requires nav { nav < length marks.old.items }
    requires few { length queue.old.items ≤ count marks.old.items }
    requires room { length marks.old.items ≤ vec_capacity queue.old }
    ensures marks { marks.new.items ≡ set marks.old.items nav true }
    ensures queue { queue.new.items ≡ queue.old.items ++ if_new nav marks.old.items }
    ensures few { length queue.new.items ≤ count marks.new.items }
    ensures capacity { vec_capacity queue.new ≡ vec_capacity queue.old }
{
    if !marks[nav as usize] {
        marks[nav as usize] = true;
        queue.push_reserved(nav);
    }
}

/// Marks each of these navigables.
pub(crate) fn mark_each(navs: &[u32], marks: &mut Vec<bool>, queue: &mut Vec<u32>)
    requires navs { All (λ n. n < length marks.old.items) navs.now }
    requires few { length queue.old.items ≤ count marks.old.items }
    requires room { length marks.old.items ≤ vec_capacity queue.old }
    ensures marks { marks.new.items ≡ mark_all navs.now marks.old.items }
    ensures queue { queue.new.items ≡ queue.old.items ++ new_of navs.now marks.old.items }
    ensures few { length queue.new.items ≤ count marks.new.items }
    ensures capacity { vec_capacity queue.new ≡ vec_capacity queue.old }
{
    for nav in navs {
        mark(marks, queue, *nav);
    }
}

/// Marks whatever is below the navigables that wait, each once.
pub(crate) fn mark_below<V: View>(
    view: &V,
    families: &[Family],
    marks: &mut Vec<bool>,
    queue: &mut Vec<u32>,
)
    requires docs { length families.now ≡ (V.tree view.now).docs }
    requires children { (d : ℕ) → children_in families.now d ≡ live (V.tree view.now) d }
    requires begun { IsUnderWay (V.tree view.now) marks.old.items queue.old.items 0 }
    requires room { (V.tree view.now).navs ≤ vec_capacity queue.old }
    ensures marks { AreMarks (V.tree view.now) marks.new.items }
    ensures len { length marks.new.items ≡ (V.tree view.now).navs }
    ensures capacity { vec_capacity queue.new ≡ vec_capacity queue.old }
{
    let _navs = view.navs();
    let mut next = 0;
    'down: while next < queue.len() {
        let doc = view.active(queue[next]);
        next += 1;
        mark_each(&families[doc as usize].children, marks, queue);
    }
}

/// Marks the navigables that an entry cuts, and whatever is below them.
pub(crate) fn mark_cuts<V: View>(
    view: &V,
    families: &[Family],
    marks: &mut Vec<bool>,
    queue: &mut Vec<u32>,
    cuts: &[u32],
)
    requires ready { IsReady (V.tree view.now) families.now marks.old.items (vec_capacity queue.old) cuts.now }
    ensures marks { AreMarks (V.tree view.now) marks.new.items }
    ensures len { length marks.new.items ≡ (V.tree view.now).navs }
    ensures capacity { vec_capacity queue.new ≡ vec_capacity queue.old }
{
    queue.clear();
    mark_each(cuts, marks, queue);
    mark_below(view, families, marks, queue);
}
