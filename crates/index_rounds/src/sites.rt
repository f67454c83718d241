use crate::Counts;
use home_index::Homes;
use origin_core::Site;
use std::alloc::{AllocError, Global};

const RENDERERS: u16 = 2;

/// Notes so many sites of one group, and asks for the homes of so many that are there, or that are not.
pub fn run_sites(
    alloc: Global,
    sites: u32,
    answers: u32,
    other: bool,
) -> Result<Counts, AllocError> {
    let mut homes = Homes::new(alloc);
    for site in 0..sites {
        homes.note(0, Site::Opaque(site), (site % 2) as u16)?;
    }
    let first = if other { sites } else { 0 };
    let answered = (0..answers)
        .filter(|&number| {
            let site = first.wrapping_add(number.checked_rem(sites).unwrap_or(0));
            homes.home_for(0, &Site::Opaque(site), RENDERERS) == 1
        })
        .count();
    Ok(Counts {
        entries: sites as usize,
        answered,
    })
}
