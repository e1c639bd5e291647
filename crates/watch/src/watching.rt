// Making and setting a watch.
ghost use Rattle.std.specs.Prelude.{◌≡◌, not, nat_le, nat_lt, if◌then◌else◌, Ok};
ghost use Rattle.std.specs.List.{list_all};
ghost use Rattle.watch.specs.Dials.{dial};
ghost use Rattle.site.specs.Refusals.{answered, unless};
ghost use Rattle.watch.specs.Watches.{watch_range, entries, clear};

use crate::watches::Watch;
use site::faults::Fault;
use site::grades::Grade;

const MOST_POSITIONS: usize = 8;

// Whether each of these turns leads to one of the positions.
fn turns_fair(positions: usize, turns: &[u8]) -> bool
    ensures { result ≡ list_all (λ turn. nat_lt turn positions) turns.now }
{
    turns.iter().all(|turn| (*turn as usize) < positions)
}

// Whether each of these numbers to be shown is a grade's.
fn shows_fair(shows: &[u8]) -> bool
    ensures { result ≡ list_all (λ show. nat_le show 2) shows.now }
{
    shows.iter().all(|show| Grade::try_from(*show).is_ok())
}

// Whether a watch of these entries is in range.
fn in_range(positions: usize, turns: &[u8; 24], shows: &[u8; 24]) -> bool
    ensures { result ≡ watch_range (entries positions turns.now shows.now) }
{
    if positions < 1 || positions > MOST_POSITIONS {
        return false;
    }
    let own = 3 * positions;
    turns_fair(positions, &turns[..own]) && shows_fair(&shows[..own])
}

impl Watch {
    // The clear watch, which shows every grade as it is.
    pub fn new() -> Watch
        ensures { dial result ≡ clear }
    {
        let mut shows = [0; 24];
        shows[1] = 1;
        shows[2] = 2;
        Watch {
            positions: 1,
            turns: [0; 24],
            shows,
        }
    }

    // Sets the watch. Entries out of range are refused, and the old ones stay; those past the first
    // 3 × positions are not looked at.
    pub fn set(&mut self, positions: usize, turns: [u8; 24], shows: [u8; 24]) -> Result<(), Fault>
        ensures answer { answered result ≡ unless (not (watch_range (entries positions turns shows))) 18 0 (Ok tt) }
        ensures after { dial self.new ≡ (if watch_range (entries positions turns shows) then entries positions turns shows else dial self.old) }
    {
        if !in_range(positions, &turns, &shows) {
            return Err(Fault::WatchRange);
        }
        *self = Watch {
            positions,
            turns,
            shows,
        };
        Ok(())
    }
}
