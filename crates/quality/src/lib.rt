// How good a tetrahedron is, as an exact fraction, and the order of such fractions.
#![tactic(auto)]

ghost use Rattle.std.specs.Prelude.{cond, ◌≡◌, ◌≤◌, nat_abs};
ghost use Rattle.volume.specs.Steps.{volume_limit, spread_limit};
ghost use Rattle.quality.specs.Quality.{quality, quality_of, is_upright, is_inverted, worse, worse_of};
ghost use Rattle.quality.specs.Steps.{from_parts};

use volume::Point;

// How a row stands: D over 0, D = 0, D below 0.
#[derive(Clone, Copy)]
pub enum Kind {
    Upright,
    Flat,
    Inverted,
}

// An exact fraction num / den with its sign; den is over 0.
#[derive(Clone, Copy)]
pub struct Quality {
    kind: Kind,
    num: u64,
    den: u64,
}

// The 432 of 432·D²/S³.
const QUALITY_FACTOR: u64 = 432;

impl Quality {
    // The quality of a flat row.
    pub const ZERO: Quality = Quality {
        kind: Kind::Flat,
        num: 0,
        den: 1,
    };

    // The quality of a row over four places.
    pub fn of(p: Point, q: Point, r: Point, s: Point) -> Quality
        ensures { result ≡ quality p q r s }
    {
        let d = volume::volume(p, q, r, s);
        let t = volume::spread(p, q, r, s);
        Quality::measured(d, t)
    }

    // The quality by D and S.
    fn measured(d: i64, s: u64) -> Quality
        requires { (nat_abs d ≤ volume_limit) × (s ≤ spread_limit) }
        ensures { result ≡ quality_of d s }
    {
        if d == 0 {
            return Quality::ZERO;
        }
        let num = QUALITY_FACTOR * volume::square(d);
        let den = s * s * s;
        let kind = if d < 0 { Kind::Inverted } else { Kind::Upright };
        Quality { kind, num, den }
    }

    // A quality by its parts, as another has them.
    #[tactic(auto, unfolding(crate::specs::Steps::from_parts))]
    pub fn of_parts(kind: Kind, num: u64, den: u64) -> Quality
        ensures { result ≡ from_parts kind num den }
    {
        if den == 0 {
            return Quality::ZERO;
        }
        Quality { kind, num, den }
    }

    pub fn kind(self) -> Kind
        ensures { result ≡ self.kind }
    {
        self.kind
    }

    pub fn num(self) -> u64
        ensures { result ≡ self.num }
    {
        self.num
    }

    pub fn den(self) -> u64
        ensures { result ≡ self.den }
    {
        self.den
    }

    // ---- the exact order

    // The numerator over 0: of an upright quality.
    fn over(self) -> u64
        ensures { result ≡ cond (is_upright self) self.num 0 }
    {
        match self.kind {
            Kind::Upright => self.num,
            Kind::Flat | Kind::Inverted => 0,
        }
    }

    // The numerator's size below 0: of an inverted quality.
    fn under(self) -> u64
        ensures { result ≡ cond (is_inverted self) self.num 0 }
    {
        match self.kind {
            Kind::Upright | Kind::Flat => 0,
            Kind::Inverted => self.num,
        }
    }

    // Whether this quality is the worse of the two: less far over 0, or farther below it.
    // Kept: no PartialOrd, whose laws `worse` breaks at a denominator of 0: 0/0 ties with 1/1 and with 2/1, which do not tie.
    pub fn worse(self, other: Quality) -> bool
        ensures { result ≡ worse self other }
    {
        exact::less(self.over(), self.den, other.over(), other.den)
            || exact::less(other.under(), other.den, self.under(), self.den)
    }

    // The worse of the two; of equals this one.
    pub fn worse_of(self, other: Quality) -> Quality
        ensures { result ≡ worse_of self other }
    {
        if other.worse(self) { other } else { self }
    }
}
