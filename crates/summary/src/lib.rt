// The summary of a patch: counts, the worst score and the octave, in one pass over its rows.
#![tactic(auto)]

ghost use Rattle.std.specs.Prelude.{◌≡◌, ◌<◌};
ghost use Rattle.volume.specs.Steps.{largest_byte};
ghost use Rattle.score.specs.Score.{added, badness};
ghost use Rattle.tally.specs.Patches.{patch_of};
ghost use Rattle.summary.specs.Summary.{summary_of};
ghost use Rattle.summary.specs.Steps.{count_with, Unwrapped, tallied, tally_with};

use quality::{Kind, Quality};
use score::Score;
use tally::MeasuredRows;

// Counts of upright, flat and inverted rows, the score of the worst row, and the octave. There is no score where there are no rows, and
// no octave where there is no upright row.
#[derive(Clone, Copy)]
pub struct Summary {
    pub upright: u8,
    pub flat: u8,
    pub inverted: u8,
    pub worst: Option<Score>,
    pub octave: Option<u8>,
}

// How many rows of each kind have been met.
#[derive(Clone, Copy)]
struct Counts {
    upright: u8,
    flat: u8,
    inverted: u8,
}

impl Counts {
    fn with(mut self, kind: Kind) -> Counts
        requires { (self.upright < largest_byte) × (self.flat < largest_byte) × (self.inverted < largest_byte) }
        ensures { result ≡ count_with self kind }
    {
        match kind {
            Kind::Upright => self.upright += 1,
            Kind::Flat => self.flat += 1,
            Kind::Inverted => self.inverted += 1,
        }
        self
    }
}

// What a row adds to the sum of badness over the upright rows.
fn added_by(q: Quality) -> u64
    ensures { result ≡ added (badness q) }
{
    score::badness(q).unwrap_or(0)
}

// What the rows met so far come to.
#[derive(Clone, Copy)]
struct Tally {
    counts: Counts,
    total: u64,
    met: Option<Quality>,
}

impl Tally {
    fn with(self, q: Quality) -> Tally
        requires { Unwrapped self q }
        ensures { result ≡ tally_with self q }
    {
        Tally {
            counts: self.counts.with(q.kind()),
            total: self.total + added_by(q),
            met: tally::worst_with(self.met, q),
        }
    }

    fn summary(self) -> Summary
        ensures { result ≡ tallied self }
    {
        Summary {
            upright: self.counts.upright,
            flat: self.counts.flat,
            inverted: self.counts.inverted,
            worst: self.met.map(Score::of),
            octave: score::octave(self.counts.upright as u64, self.total),
        }
    }
}

// The summary of the rows of a table.
pub fn summary_of(rows: &MeasuredRows) -> Summary
    ensures { result ≡ summary_of (patch_of rows.now) }
{
    let mut tally = Tally {
        counts: Counts {
            upright: 0,
            flat: 0,
            inverted: 0,
        },
        total: 0,
        met: None,
    };
    for i in 0..rows.n {
        tally = tally.with(rows.quality(i));
    }
    tally.summary()
}
