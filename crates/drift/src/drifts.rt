// A drift site: a clock that drifts, told by its step and by how many settings in a row may be lost.
ghost use Rattle.std.specs.Prelude.{◌≡◌, true};
ghost use Rattle.drift.specs.Drifts.{drift_range};

// The setting is in range whenever a drift site exists.
#[derive(Clone, Copy)]
pub struct Drift {
    pub(crate) step: usize,
    pub(crate) losses: usize,
    ghost ok: { drift_range step losses ≡ true },
}
