ghost use Rattle.std.specs.Prelude.{◌≡◌, ◌≤◌, ◌<◌, [], IfOk, OnOk, OnErr};
ghost use Rattle.dms_base.specs.Causes.{HasCause};
ghost use Rattle.dms_feed.specs.Feeds.{Feeds, TakesMore, TakingFails};

use dms_site::{Failed, Source};
use std::marker::Model;

/// Bytes that were taken from a source and not yet given.
#[derive(Drop)]
pub struct Feed {
    buffer: [u8; 512],
    at: usize,
    end: usize,
}

impl Model for Feed {
    ghost use Rattle.std.specs.Prelude.{List, ℕ, take, drop, ◌≤◌, ◌-◌};

    ghost Value = { List ℕ };

    ghost view = { λ f. drop f.at (take f.end f.buffer) };

    ghost invariant = { λ f. (f.at ≤ f.end) × (f.end ≤ 512) };
}

impl Feed {
    /// Nothing held.
    pub fn new() -> Feed
        ensures { result ≡ [] }
    {
        Feed {
            buffer: [0; 512],
            at: 0,
            end: 0,
        }
    }

    /// Takes bytes where none is held. At a fault what remained still remains.
    fn fill<I: Source>(&mut self, source: &mut I) -> Result<(), Failed>
        ensures fills { OnOk result (TakesMore self.old (I.left source.old) self.new (I.left source.new)) }
        ensures fails { OnErr result (TakingFails self.old (I.left source.old) self.new (I.left source.new)) }
        ensures same { I.same_source source.old source.new }
        ensures cause { HasCause (I.faults source.old) (I.faults source.new) result }
    {
        if self.at < self.end {
            return Ok(());
        }
        let count = source.take(&mut self.buffer)?;
        self.at = 0;
        self.end = count;
        Ok(())
    }

    /// The next byte of what is held and then of the source, or none at the end. At a fault what remained still remains.
    pub fn next<I: Source>(&mut self, source: &mut I) -> Result<Option<u8>, Failed>
        ensures byte { IfOk result (Feeds self.old (I.left source.old) self.new (I.left source.new)) }
        ensures fails { OnErr result (TakingFails self.old (I.left source.old) self.new (I.left source.new)) }
        ensures same { I.same_source source.old source.new }
        ensures cause { HasCause (I.faults source.old) (I.faults source.new) result }
    {
        self.fill(source)?;
        if self.at >= self.end {
            return Ok(None);
        }
        let byte = self.buffer[self.at];
        self.at += 1;
        Ok(Some(byte))
    }
}
