ghost use Rattle.std.specs.Prelude.{◌≡◌, ◌+◌, ℕ, [], ◌∷◌, ◌++◌, OnOk, OnErr, if◌then◌else◌};
ghost use Rattle.dms_sitemem.specs.Slots.{files_of};
ghost use Rattle.dms_sitemem.specs.Events.{files_after, said_after, is_call, calls_in};
ghost use Rattle.dms_sitemem.specs.Replay.{state_of};

use crate::event::SiteEvent;
use crate::image::Image;
use crate::plan::FailurePlan;
use std::alloc::{AllocError, Global};

/// All that was done to a site, and what it made of files and text. A want of memory changes nothing.
///
/// Each call is kept with its success, and answers it.
#[derive(Drop)]
pub struct Journal {
    pub plan: FailurePlan,
    pub image: Image,
    pub events: Vec<SiteEvent>,
    /// So many of the events are calls.
    pub made: u64,
    ghost files_same: { files_of image.files ≡ (state_of events.items).files },
    ghost said_same: { image.said.items ≡ (state_of events.items).said },
    ghost made_same: { made ≡ calls_in events.items },
}

impl Journal {
    /// Nothing was done.
    #[tactic(auto, unfolding(crate::specs::Replay::state_of, crate::specs::Events::calls_in))]
    pub fn new(alloc: Global, plan: FailurePlan) -> Journal
        ensures plan { result.plan ≡ plan }
        ensures events { result.events.items ≡ [] }
        ensures files { (f : ℕ) → files_of result.image.files f ≡ [] }
        ensures said { result.image.said.items ≡ [] }
        ensures made { result.made ≡ 0 }
    {
        Journal {
            plan,
            image: Image::new(alloc),
            events: Vec::new(alloc),
            made: 0,
        }
    }

    /// Keeps an event and does it. Answers Err where memory is refused, or a write that is done reaches beyond 2^64 - 1.
    pub fn keep(&mut self, event: SiteEvent) -> Result<(), AllocError>
        ensures kept { OnOk result (self.new.events.items ≡ self.old.events.items ++ event ∷ []) }
        ensures files { OnOk result (files_of self.new.image.files ≡ files_after event (files_of self.old.image.files)) }
        ensures said { OnOk result (self.new.image.said.items ≡ said_after event self.old.image.said.items) }
        ensures unkept { OnErr result (self.new.events.items ≡ self.old.events.items) }
        ensures same_files { OnErr result (files_of self.new.image.files ≡ files_of self.old.image.files) }
        ensures same_said { OnErr result (self.new.image.said.items ≡ self.old.image.said.items) }
        ensures made { OnOk result (self.new.made ≡ self.old.made + (if is_call event then 1 else 0)) }
        ensures unmade { OnErr result (self.new.made ≡ self.old.made) }
        ensures plan { self.new.plan ≡ self.old.plan }
    {
        let made = self.made + event.calls();
        self.events.reserve(1)?;
        self.image.apply(&event)?;
        self.events.push(event)?;
        self.made = made;
        Ok(())
    }
}
