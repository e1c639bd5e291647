// Making and setting a drift site.
ghost use Rattle.std.specs.Prelude.{◌≡◌, ℕ, not, if◌then◌else◌, Ok};
ghost use Rattle.drift.specs.Drifts.{drift_range, ByPlaces};
ghost use Rattle.site.specs.Refusals.{answered, unless};

use crate::drifts::Drift;
use site::faults::Fault;

const MOST_STEP: usize = 8;

const MOST_LOSSES: usize = 7;

impl Drift {
    // The drift site of step 1 in which no setting is lost. With every setting the states of a drift
    // site are its places, each with the place's grade and moves.
    pub fn new() -> Drift
        ensures step { result.step ≡ 1 }
        ensures losses { result.losses ≡ 0 }
        ensures places { (d k : ℕ) → ByPlaces d k }
    {
        Drift { step: 1, losses: 0 }
    }

    // Sets the step and the loss bound. A setting out of range is refused, and the old one stays.
    pub fn set(&mut self, step: usize, losses: usize) -> Result<(), Fault>
        ensures answer { answered result ≡ unless (not (drift_range step losses)) 20 0 (Ok tt) }
        ensures step { self.new.step ≡ (if drift_range step losses then step else self.old.step) }
        ensures losses { self.new.losses ≡ (if drift_range step losses then losses else self.old.losses) }
    {
        if step < 1 || step > MOST_STEP || losses > MOST_LOSSES {
            return Err(Fault::DriftRange);
        }
        *self = Drift { step, losses };
        Ok(())
    }
}
