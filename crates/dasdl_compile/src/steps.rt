ghost use Rattle.std.specs.Prelude.{◌≡◌, ℕ, List};
ghost use Rattle.dasdl_compile.specs.Answers.{Judged, Makes, steps};

use crate::fault::CompileFault;
use std::alloc::Global;

/// What is made from one thing after another, under what is known beside them.
pub trait Stepwise<C, T>: Drop {
    /// What one of them makes of it.
    ghost step_at: { C → Self → T → Judged Self };

    /// What no step changes.
    ghost fixed: { Self → List ℕ × ℕ };

    /// Takes one of them, or answers its fault.
    fn step(&mut self, alloc: Global, known: &C, one: &T) -> Result<(), CompileFault>
        ensures made { Makes result self.new (step_at known.now self.old one.now) }
        ensures kept { fixed self.new ≡ fixed self.old };
}

/// Takes one after another, up to the first fault.
#[tactic(auto, unfolding(crate::specs::Answers::steps))]
pub fn all_steps<C, T, S: Stepwise<C, T>>(
    state: &mut S,
    alloc: Global,
    known: &C,
    list: &[T],
) -> Result<(), CompileFault>
    ensures made { Makes result state.new (steps S.step_at known.now state.old list.now) }
    ensures kept { S.fixed state.new ≡ S.fixed state.old }
{
    for one in list {
        state.step(alloc, known, one)?;
    }
    Ok(())
}
