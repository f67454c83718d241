ghost use Rattle.std.specs.Prelude.{◌≡◌};
ghost use Rattle.plain_data.specs.Ascending as spec;

use crate::data::Data;
use crate::text::Text;
use std::cmp::Ordering;

/// Whether the keys of each record strictly ascend by bytes, at each level. It takes no memory.
#[cycle(levels)]
#[tactic(auto, using(crate::proofs::AscendingLaws::levels))]
pub fn keys_ascend(value: &Data) -> bool
    ensures { result ≡ spec.keys_ascend value.now }
{
    match value {
        Data::List(items) => all_ascend(items.as_slice()),
        Data::Record(members) => ascend(members.as_slice()) && values_ascend(members.as_slice()),
        _ => true,
    }
}

#[cycle(levels)]
#[tactic(auto, unfolding(crate::specs::Ascending::all_ascend))]
fn all_ascend(items: &[Data]) -> bool
    ensures { result ≡ spec.all_ascend items.now }
{
    for item in items {
        if !keys_ascend(item) {
            return false;
        }
    }
    true
}

#[cycle(levels)]
#[tactic(auto, unfolding(crate::specs::Ascending::values_ascend))]
fn values_ascend(members: &[(Text, Data)]) -> bool
    ensures { result ≡ spec.values_ascend members.now }
{
    for member in members {
        if !keys_ascend(&member.1) {
            return false;
        }
    }
    true
}

fn is_below(a: &str, b: &str) -> bool
    ensures { result ≡ spec.is_below a.now b.now }
{
    a.cmp(b) == Ordering::Less
}

// Whether the members' keys ascend.
fn ascend(members: &[(Text, Data)]) -> bool
    ensures { result ≡ spec.ascend (spec.keys_of members.now) }
{
    for i in 1..members.len() {
        if !is_below(members[i - 1].0.as_str(), members[i].0.as_str()) {
            return false;
        }
    }
    true
}
