// Ascending lists of navigables.
ghost use Rattle.std.specs.Prelude.{◌≡◌, ◌<◌, length};
ghost use Rattle.std.specs.Vec.{vec_capacity};
ghost use Rattle.indexed_view.specs.Lists.{IsAscending, is_in, with_one, without};
ghost use Rattle.tree_log.specs.Siblings.{behind, first_if_any};

/// Puts a navigable between the smaller and the greater ones. There is room for it.
pub(crate) fn put(list: &mut Vec<u32>, nav: u32)
    requires ascending { IsAscending list.old.items }
    requires room { length list.old.items < vec_capacity list.old }
    ensures { list.new.items ≡ with_one nav list.old.items }
{
    match list.as_slice().binary_search(&nav) {
        Ok(_) => {}
        Err(place) => {
            match list.insert(place, nav) {
                Ok(()) => {}
                Err(_) => unreachable!(),
            }
        }
    }
}

/// Takes a navigable out, if it is there.
pub(crate) fn take_out(list: &mut Vec<u32>, nav: u32)
    requires ascending { IsAscending list.old.items }
    ensures items { list.new.items ≡ without nav list.old.items }
    ensures room { length list.old.items < vec_capacity list.old → length list.new.items < vec_capacity list.new }
{
    match list.as_slice().binary_search(&nav) {
        Ok(place) => {
            list.remove(place);
        }
        Err(_) => {}
    }
}

/// Whether a navigable is there.
pub(crate) fn is_there(list: &[u32], nav: u32) -> bool
    requires ascending { IsAscending list.now }
    ensures { result ≡ is_in nav list.now }
{
    match list.binary_search(&nav) {
        Ok(_) => true,
        Err(_) => false,
    }
}

/// The one after a navigable, if that is there.
pub(crate) fn next_after(list: &[u32], nav: u32) -> Option<u32>
    requires ascending { IsAscending list.now }
    ensures { result ≡ first_if_any (behind nav list.now) }
{
    match list.binary_search(&nav) {
        Ok(place) => list.get(place + 1).copied(),
        Err(_) => None,
    }
}
