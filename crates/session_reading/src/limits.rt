// The limits of plain data.
ghost use Rattle.std.specs.Prelude.{◌≡◌, ◌+◌, ℕ, min, nat_le, length};
ghost use Rattle.plain_data.specs.DataLimits as spec;
ghost use Rattle.session_reading.specs.Levels as levels;

use plain_data::{Data, Text, keys_ascend};

const MAX_DEPTH: usize = 16;

const MAX_SIZE: usize = 4096;

pub(crate) const MAX_TEXT: usize = 1024;

const MAX_WHOLE: i64 = 9007199254740991;

/// Whether the data may be sent: it nests at most 16 deep, where a value that is no list and no record has depth 1;
/// it takes at most 4,096 bytes on the wire; its wholes are within plus or minus 9,007,199,254,740,991, its texts and
/// keys have at most 1,024 bytes, and the keys of each record strictly ascend. It takes no memory.
#[tactic(auto, unfolding(plain_data::specs::DataLimits::within_limits))]
pub fn within_limits(value: &Data) -> bool
    ensures { result ≡ spec.within_limits value.now }
{
    nests_within(value, MAX_DEPTH)
        && fits_size(value)
        && parts_in_range(value)
        && keys_ascend(value)
}

#[cycle(nests)]
#[tactic(auto, using(crate::proofs::Depths::depth_levels))]
fn nests_within(value: &Data, depth: usize) -> bool
    ensures { result ≡ nat_le (spec.depth value.now) depth }
{
    if depth == 0 {
        return false;
    }
    match value {
        Data::List(items) => items_nest(items.as_slice(), depth - 1),
        Data::Record(members) => members_nest(members.as_slice(), depth - 1),
        _ => true,
    }
}

#[cycle(nests)]
#[tactic(auto, unfolding(crate::specs::Levels::all_nest))]
fn items_nest(items: &[Data], depth: usize) -> bool
    ensures { result ≡ levels.all_nest depth items.now }
{
    for item in items {
        if !nests_within(item, depth) {
            return false;
        }
    }
    true
}

#[cycle(nests)]
#[tactic(auto, unfolding(crate::specs::Levels::members_nest))]
fn members_nest(members: &[(Text, Data)], depth: usize) -> bool
    ensures { result ≡ levels.members_nest depth members.now }
{
    for member in members {
        if !nests_within(&member.1, depth) {
            return false;
        }
    }
    true
}

pub(crate) fn is_safe(whole: i64) -> bool
    ensures { result ≡ spec.is_safe whole }
{
    -MAX_WHOLE <= whole && whole <= MAX_WHOLE
}

fn is_short(text: &str) -> bool
    ensures { result ≡ spec.is_short text.now }
{
    text.len() <= MAX_TEXT
}

#[cycle(parts)]
#[tactic(auto, using(crate::proofs::PartsInRange::range_levels))]
fn parts_in_range(value: &Data) -> bool
    ensures { result ≡ spec.parts_in_range value.now }
{
    match value {
        Data::Whole(whole) => is_safe(*whole),
        Data::Text(text) => is_short(text.as_str()),
        Data::List(items) => items_in_range(items.as_slice()),
        Data::Record(members) => members_in_range(members.as_slice()),
        _ => true,
    }
}

#[cycle(parts)]
#[tactic(auto, unfolding(crate::specs::Levels::all_in_range))]
fn items_in_range(items: &[Data]) -> bool
    ensures { result ≡ levels.all_in_range items.now }
{
    for item in items {
        if !parts_in_range(item) {
            return false;
        }
    }
    true
}

#[cycle(parts)]
#[tactic(auto, unfolding(crate::specs::Levels::members_in_range))]
fn members_in_range(members: &[(Text, Data)]) -> bool
    ensures { result ≡ levels.members_in_range members.now }
{
    for member in members {
        if !is_short(member.0.as_str()) {
            return false;
        }
        if !parts_in_range(&member.1) {
            return false;
        }
    }
    true
}

fn fits_size(value: &Data) -> bool
    ensures { result ≡ nat_le (spec.encoded_size value.now) spec.most_size }
{
    size_capped(value) <= MAX_SIZE
}

// One more than the limit stands for every size over it.
fn cap(size: usize) -> usize
    ensures { result ≡ min size (spec.most_size + 1) }
{
    size.min(MAX_SIZE + 1)
}

#[cycle(sizes)]
fn size_capped(value: &Data) -> usize
    ensures { result ≡ min (spec.encoded_size value.now) (spec.most_size + 1) }
{
    match value {
        Data::Whole(_) => 9,
        Data::Text(text) => cap(3 + cap(text.as_str().len())),
        Data::List(items) => cap(3 + items_size(items.as_slice())),
        Data::Record(members) => cap(3 + members_size(members.as_slice())),
        _ => 1,
    }
}

#[cycle(sizes)]
#[tactic(auto, unfolding(crate::specs::Levels::sizes))]
fn items_size(items: &[Data]) -> usize
    ensures { result ≡ min (levels.sizes items.now) (spec.most_size + 1) }
{
    let mut size = 0;
    for item in items {
        size = cap(size + size_capped(item));
    }
    size
}

#[cycle(sizes)]
#[tactic(auto, unfolding(crate::specs::Levels::member_sizes))]
fn members_size(members: &[(Text, Data)]) -> usize
    ensures { result ≡ min (levels.member_sizes members.now) (spec.most_size + 1) }
{
    let mut size = 0;
    for member in members {
        let key = 2 + cap(member.0.as_str().len());
        size = cap(size + key + size_capped(&member.1));
    }
    size
}
