// What the types of an entry's parts promise, told to a proof about the entry: of its data no type does. None of these does
// anything when it runs.
ghost use Rattle.std.specs.Prelude.{IfSome};
ghost use Rattle.origin_core.specs.Origin.{IsOrigin};
ghost use Rattle.tree_log.specs.Range.{HasAscendingKeys, IsInRange, IsLoadInRange, IsTargetInRange};

use crate::entry::{Entry, Load, Target, What};
use origin_core::Origin;

pub(crate) fn know_entry(entry: &Entry)
    requires keys { HasAscendingKeys entry.now.what }
    ensures { IsInRange entry.now.what }
{
    match &entry.what {
        What::Open { origin, load, .. } => {
            know_origin(origin);
            know_load_if_any(load);
        }
        What::Frame { origin, load, .. } => {
            know_origin(origin);
            know_load_if_any(load);
        }
        What::Begin { load, .. } => know_load(load),
        What::Fragment { url, .. } => {
            let _text = url.as_str();
        }
        What::Post { origin, target, .. } => {
            know_origin(origin);
            know_target(target);
        }
        _ => {}
    }
}

fn know_origin(origin: &Origin)
    ensures { IsOrigin origin.now }
{
    match origin {
        Origin::Tuple(tuple) => {
            let _host = tuple.host();
        }
        Origin::Opaque(_) => {}
    }
}

fn know_load(load: &Load)
    ensures { IsLoadInRange load.now }
{
    let _text = load.url.as_str();
    know_origin(&load.origin);
}

fn know_load_if_any(load: &Option<Load>)
    ensures { IfSome load.now IsLoadInRange }
{
    match load {
        Some(load) => know_load(load),
        None => {}
    }
}

fn know_target(target: &Target)
    ensures { IsTargetInRange target.now }
{
    match target {
        Target::Origin(origin) => know_origin(origin),
        Target::Any | Target::Never => {}
    }
}
