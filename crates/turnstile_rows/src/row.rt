ghost use Rattle.std.specs.Prelude.{◌<◌, IfSome};

use crate::racer::Work;

/// What a row asks for: at least one seat, and items at least as often as every so many rounds.
#[derive(Drop)]
pub struct Row {
    pub seats: u16,
    pub work: Work,
}

impl Row {
    /// Reads `SEATS ROUNDS EVERY`. `None` where it isn't that.
    pub fn read(line: &str) -> Option<Row>
        ensures { IfSome result (λ row. (0 < row.seats) × (0 < row.work.every)) }
    {
        let mut words = line.split(' ');
        let seats = words.next()?.parse::<u16>().ok()?;
        let rounds = words.next()?.parse::<u64>().ok()?;
        let every = words.next()?.parse::<u64>().ok()?;
        if seats == 0 || every == 0 || words.next().is_some() {
            return None;
        }
        let work = Work { rounds, every };
        Some(Row { seats, work })
    }
}
