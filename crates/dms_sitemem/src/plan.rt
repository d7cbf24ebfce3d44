ghost use Rattle.std.specs.Prelude.{◌≡◌};
ghost use Rattle.dms_sitemem.specs.Plans.{is_named};

/// Which calls fail, by their numbers from 1 on: those that are listed, and all from a stop on.
#[derive(Drop)]
pub struct FailurePlan {
    pub fails: Vec<u64>,
    pub stop: Option<u64>,
}

impl FailurePlan {
    /// Whether the call of this number fails.
    #[tactic(auto, unfolding(crate::specs::Plans::is_named))]
    pub fn names(&self, number: u64) -> bool
        ensures { result ≡ is_named self.now number }
    {
        if self.fails.contains(&number) {
            return true;
        }
        match self.stop {
            Some(stop) => stop <= number,
            None => false,
        }
    }
}
