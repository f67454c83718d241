ghost use Rattle.std.specs.Prelude.{◌≡◌, ◌<◌, ℕ, Some, true, IsTrue, OnOk};
ghost use Rattle.std.specs.BTreeSet as set_spec;
ghost use Rattle.std.specs.Ordering.{nat_cmp};
ghost use Rattle.task_index.specs.Fed.{ascends, first_queued, in_row, is_last_below, is_led_by, lesser, row_size, IsFirstOf, KeepsRow};

use std::alloc::{AllocError, Global};
use std::collections::{BTreeSet, VecDeque};

/// The places of the entries that may leave a renderer a task.
#[derive(Drop)]
pub struct Row {
    /// In ascending order: a place joins at the back and leaves at the front.
    pub(crate) queue: VecDeque<u32>,
    /// The places that came when a later one was in the queue.
    pub(crate) moved: BTreeSet<u32>,
}

impl Row {
    pub fn new(alloc: Global) -> Self
        ensures { ascends result.queue.items ≡ true }
    {
        Row {
            queue: VecDeque::new(alloc),
            moved: BTreeSet::new(alloc),
        }
    }

    /// Puts a place into the row. After an `Err` it has lost none.
    pub fn put(&mut self, place: u32) -> Result<(), AllocError>
        ensures kept { KeepsRow self.old self.new }
        ensures there { OnOk result (in_row self.new place ≡ true) }
    {
        if is_behind(&self.queue, place) {
            self.queue.push_back(place)?;
        } else {
            self.moved.insert(place)?;
        }
        Ok(())
    }

    /// The least place of the row.
    pub fn first(&self) -> Option<u32>
        requires { ascends self.now.queue.items ≡ true }
        ensures { IsFirstOf (in_row self.now) result }
    {
        lesser(front_of(&self.queue), first_of(&self.moved))
    }

    /// Takes out the least place of the row.
    pub fn remove_first(&mut self, place: u32)
        requires order { ascends self.old.queue.items ≡ true }
        requires first { IsFirstOf (in_row self.old) (Some place) }
        ensures order { ascends self.new.queue.items ≡ true }
        ensures others { (other : ℕ) → (other ≡ place → ⊥) → in_row self.old other ≡ true → in_row self.new other ≡ true }
        ensures fewer { row_size self.new < row_size self.old }
    {
        if is_led_by(&self.queue, place) {
            self.queue.pop_front();
        } else {
            self.moved.remove(&place);
        }
    }
}

/// Whether a place is greater than each of the queue.
fn is_behind(queue: &VecDeque<u32>, place: u32) -> bool
    ensures { IsTrue result → is_last_below queue.now.items place ≡ true }
{
    match queue.back() {
        Some(newest) => *newest < place,
        None => true,
    }
}

/// Whether a place is the first of the queue.
fn is_led_by(queue: &VecDeque<u32>, place: u32) -> bool
    ensures { result ≡ is_led_by queue.now.items place }
{
    match queue.front() {
        Some(first) => *first == place,
        None => false,
    }
}

fn front_of(queue: &VecDeque<u32>) -> Option<u32>
    ensures { result ≡ first_queued queue.now.items }
{
    match queue.front() {
        Some(place) => Some(*place),
        None => None,
    }
}

fn first_of(moved: &BTreeSet<u32>) -> Option<u32>
    ensures { IsFirstOf (set_spec.contains nat_cmp moved.now) result }
{
    match moved.first() {
        Some(place) => Some(*place),
        None => None,
    }
}

fn lesser(a: Option<u32>, b: Option<u32>) -> Option<u32>
    ensures { result ≡ lesser a b }
{
    match (a, b) {
        (Some(place), Some(other)) => Some(if place < other { place } else { other }),
        (Some(place), None) => Some(place),
        (None, other) => other,
    }
}
