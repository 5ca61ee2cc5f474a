// What the page shows: one f64 of a quality, and the record of a removal.
#![tactic(auto)]

ghost use Rattle.std.specs.Prelude.{◌≡◌, ◌<◌};
ghost use Rattle.page.specs.Near.{ShownNear};
ghost use Rattle.page.specs.Page.{page_row, quotient, shown, signed_size};

use quality::{Kind, Quality};

// ---- shown quality

// What the page shows of a quality.
#[derive(Clone, Copy)]
pub enum Shown {
    Flat,
    Upright(f64),
    Inverted(f64),
}

// The single quotient of two whole numbers, each rounded to the nearest f64 first.
#[tactic(auto, unfolding(crate::specs::Page::quotient))]
fn quotient(num: u64, den: u64) -> f64
    ensures { result ≡ quotient num den }
{
    std::num::nearest_u64_to_f64(num) / std::num::nearest_u64_to_f64(den)
}

impl Shown {
    // What the page shows of a quality.
    #[tactic(auto, unfolding(crate::specs::Page::shown))]
    pub fn of(quality: Quality) -> Shown
        ensures value { result ≡ shown quality }
        ensures near { 0 < quality.den → ShownNear quality (signed_size result) }
    {
        let num = quality.num();
        let den = quality.den();
        match quality.kind() {
            Kind::Upright => Shown::Upright(quotient(num, den)),
            Kind::Flat => Shown::Flat,
            Kind::Inverted => Shown::Inverted(quotient(num, den)),
        }
    }

    // The size with its sign.
    pub fn signed(self) -> f64
        ensures { result ≡ signed_size self }
    {
        match self {
            Shown::Flat => 0.0,
            Shown::Upright(size) => size,
            Shown::Inverted(size) => -size,
        }
    }
}

// ---- page row

// The page's record of a removal: the sizes of the worst before and after, with their signs.
#[derive(Clone, Copy)]
pub struct PageRow {
    pub before: f64,
    pub after: f64,
}

impl PageRow {
    #[tactic(auto, unfolding(crate::specs::Page::page_row))]
    pub fn of(before: Shown, after: Shown) -> PageRow
        ensures { result ≡ page_row before after }
    {
        PageRow {
            before: before.signed(),
            after: after.signed(),
        }
    }
}
