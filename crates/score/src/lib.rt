// What whole numbers say of qualities: score, badness and octave, each for every input, and `None` where there is no such number.
#![tactic(auto)]

ghost use Rattle.std.specs.Prelude.{eqb, leb, cond, ◌≡◌, ◌*◌, ◌^◌, ◌≤◌, None, Some};
ghost use Rattle.lists.specs.Lists.{largest};
ghost use Rattle.score.specs.Score.{badness, highest_score, octave_of, score, score_at, score_factor};

use quality::{Kind, Quality};

// ---- score

// A whole number from 0 to 1000.
#[derive(Clone, Copy)]
pub struct Score {
    value: u16,
}

impl Score {
    pub const LOWEST: Score = Score { value: 0 };

    pub const HIGHEST: Score = Score { value: 1000 };

    // The score of a quality.
    pub fn of(quality: Quality) -> Score
        ensures { result ≡ score quality }
    {
        let kind = quality.kind();
        match kind {
            Kind::Upright => Score::at(score_of(quality.num(), quality.den())),
            Kind::Flat => Score::LOWEST,
            Kind::Inverted => Score::LOWEST,
        }
    }

    // The score n; the highest for whatever is over it.
    fn at(n: u16) -> Score
        ensures { result ≡ score_at n }
    {
        if Score::HIGHEST.value < n {
            return Score::HIGHEST;
        }
        Score { value: n }
    }

    pub fn value(self) -> u16
        ensures { result ≡ self.value }
    {
        self.value
    }
}

// 10^9: the score n stands for the quality n³ / 10^9.
const SCORE_FACTOR: u64 = 1000000000;

// Whether num / den is at least n³ / 10^9.
fn reaches(num: u64, den: u64, n: u16) -> bool
    requires { n ≤ highest_score }
    ensures { result ≡ leb (n ^ 3 * den) (score_factor * num) }
{
    let root = n as u64;
    !exact::less(num, den, root * root * root, SCORE_FACTOR)
}

// The score of num / den, by halving: it is `low` at least and below `high`.
fn score_of(num: u64, den: u64) -> u16
    ensures { result ≡ largest (λ n. leb (n ^ 3 * den) (score_factor * num)) highest_score }
{
    let mut low = Score::LOWEST.value;
    let mut high = Score::HIGHEST.value + 1;
    while low + 1 < high {
        let middle = (low + high) / 2;
        if reaches(num, den, middle) {
            low = middle;
        } else {
            high = middle;
        }
    }
    low
}

// ---- badness

// The badness of a quality: its inverse, rounded up; there is one for an upright row only.
pub fn badness(quality: Quality) -> Option<u64>
    ensures { result ≡ badness quality }
{
    let kind = quality.kind();
    match kind {
        Kind::Upright => {
            let num = quality.num();
            let den = quality.den();
            Some(exact::rounded_up(den, num))
        }
        Kind::Flat => None,
        Kind::Inverted => None,
    }
}

// ---- octave

// The largest octave looked for.
const OCTAVE_LIMIT: u8 = 63;

// The octave of n upright rows whose badness adds up to the total, by halving the total as long as n of it are left.
fn octave_of(n: u64, total: u64) -> u8
    ensures { result ≡ octave_of n total }
{
    let mut half = total / 2;
    for exponent in 0..OCTAVE_LIMIT {
        if half < n {
            return exponent;
        }
        half /= 2;
    }
    OCTAVE_LIMIT
}

// The octave; there is none where there is no upright row.
pub fn octave(n: u64, total: u64) -> Option<u8>
    ensures { result ≡ cond (eqb n 0) None (Some (octave_of n total)) }
{
    if n == 0 {
        return None;
    }
    Some(octave_of(n, total))
}
