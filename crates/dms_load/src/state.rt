ghost use Rattle.std.specs.Prelude.{◌≡◌, ◌<◌, ◌≤◌, ◌^◌, length};
ghost use Rattle.dms_load.specs.Drawing.{drawing_of};
ghost use Rattle.dms_load.specs.Script.{after_line, at_seed, drawn, next_draw, next_line};

use crate::line::{LoadLine, open_line, phase_line};
use crate::phase::Phase;

/// How far the script of a seed is written: its draws so far, and where each of its four programs stands.
#[derive(Clone, Copy, Debug)]
pub struct LoadState {
    /// So many of the four programs opened the database.
    pub opened: u32,
    /// The number that the last draw left; first the seed.
    pub x: u64,
    /// What each program does next.
    pub phases: [Phase; 4],
}

impl LoadState {
    /// Before the first line.
    pub fn new(seed: u64) -> LoadState
        ensures { drawing_of result ≡ at_seed seed }
    {
        LoadState {
            opened: 0,
            x: seed,
            phases: [Phase::Begin; 4],
        }
    }

    /// The next draw: a number below 2^31.
    fn draw(&mut self) -> u32
        ensures value { result ≡ drawn (next_draw self.old.x) }
        ensures x { self.new.x ≡ next_draw self.old.x }
        ensures others { (self.new.opened ≡ self.old.opened) × (self.new.phases ≡ self.old.phases) }
    {
        self.x = self
            .x
            .wrapping_mul(6_364_136_223_846_793_005)
            .wrapping_add(1_442_695_040_888_963_407);
        (self.x >> 33) as u32
    }

    /// A line behind the first four, by three draws.
    fn drawn_line(&mut self) -> LoadLine
        requires opened { 4 ≤ self.old.opened }
        ensures text { result.bytes ≡ next_line (drawing_of self.old) }
        ensures some { 0 < length result.bytes }
        ensures after { drawing_of self.new ≡ after_line (drawing_of self.old) }
    {
        let program = self.draw() % 4;
        let key = self.draw() % 1000 + 1;
        let done = self.draw();
        let phase = self.phases[program as usize];
        self.phases[program as usize] = phase.next();
        phase_line(program + 1, phase, key, done)
    }

    /// The next line: each of the four programs opens the database, and from then on three draws make a line.
    pub fn next_line(&mut self) -> LoadLine
        ensures text { result.bytes ≡ next_line (drawing_of self.old) }
        ensures some { 0 < length result.bytes }
        ensures after { drawing_of self.new ≡ after_line (drawing_of self.old) }
    {
        if self.opened < 4 {
            self.opened += 1;
            return open_line(self.opened);
        }
        self.drawn_line()
    }
}
