// Large sites: ladders of one grade, and random floors.
ghost use Rattle.std.specs.Prelude.{◌<◌};

use site::grades::Grade;
use site::interface::MOST_STATES;
use site::sheets::Row;
use std::alloc::{AllocError, Global};

// The sheets of a table.
#[derive(Drop)]
pub struct Sheets {
    pub rows: Vec<Row>,
    pub arrows: Vec<u16>,
}

// A row of states of one grade, each leading to the one before it; the first has another grade and leads to itself.
pub(crate) fn ladder(heap: Global, end: Grade, step: Grade) -> Result<Sheets, AllocError> {
    let mut rows = Vec::new(heap);
    let mut arrows = Vec::new(heap);
    for s in 0..MOST_STATES {
        let grade = if s == 0 { end } else { step };
        rows.push(Row {
            grade,
            commands: 1,
            events: 1,
            first: s as u32,
        })?;
        arrows.push(s.saturating_sub(1) as u16)?;
    }
    Ok(Sheets { rows, arrows })
}

// The next number of a simple generator; the tests have the same, for their inputs, which may not change.
fn next_random(seed: u64) -> u64 {
    seed.wrapping_mul(6364136223846793005)
        .wrapping_add(1442695040888963407)
}

// A number below `bound`, from the generator's high bits.
fn below(seed: u64, bound: u64) -> u64
    ensures { 0 < bound → result < bound }
{
    if bound == 0 { 0 } else { (seed >> 33) % bound }
}

// A random site with 1 to 3 commands and events.
pub(crate) fn random(heap: Global, start: u64) -> Result<Sheets, AllocError> {
    let mut rows = Vec::new(heap);
    let mut arrows = Vec::new(heap);
    let mut seed = start;
    let mut first = 0u32;
    for _ in 0..MOST_STATES {
        seed = next_random(seed);
        let grade = match below(seed, 3) {
            0 => Grade::Confirmed,
            1 => Grade::Doubted,
            _ => Grade::Ordinary,
        };
        seed = next_random(seed);
        let commands = 1 + below(seed, 3) as u8;
        seed = next_random(seed);
        let events = 1 + below(seed, 3) as u8;
        rows.push(Row {
            grade,
            commands,
            events,
            first,
        })?;
        for _ in 0..commands.saturating_mul(events) {
            seed = next_random(seed);
            arrows.push(below(seed, MOST_STATES as u64) as u16)?;
        }
        first = first.saturating_add(commands as u32 * events as u32);
    }
    Ok(Sheets { rows, arrows })
}
