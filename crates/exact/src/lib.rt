// Fractions of whole numbers in 64 bits: which of two is the smaller, and a quotient rounded up.
// Every input has an answer, a denominator of 0 included, and nothing is ever too large.
#![tactic(auto)]

ghost use Rattle.std.specs.Prelude.{◌≡◌};
ghost use Rattle.exact.specs.Fractions.{is_less, rounded_up};

// Whether n1 / d1 is less than n2 / d2, by whole parts, and where those are one, by the remainders: r1 / d1 is less than
// r2 / d2 as d2 / r2 is less than d1 / r1. Two fractions below 1 are turned over at once, which saves their two divisions.
pub fn less(n1: u64, d1: u64, n2: u64, d2: u64) -> bool
    ensures { result ≡ is_less n1 d1 n2 d2 }
{
    if d1 == 0 {
        return false;
    }
    if d2 == 0 {
        return 0 < n2;
    }
    if n1 < d1 {
        if n2 < d2 {
            return less(d2, n2, d1, n1);
        }
        return true;
    }
    if n2 < d2 {
        return false;
    }
    let q1 = n1 / d1;
    let q2 = n2 / d2;
    if q1 == q2 {
        return less(d2, n2 % d2, d1, n1 % d1);
    }
    q1 < q2
}

// n / d rounded up; 0 where d is 0.
pub fn rounded_up(n: u64, d: u64) -> u64
    ensures { result ≡ rounded_up n d }
{
    if d == 0 {
        return 0;
    }
    let whole = n / d;
    if n % d == 0 {
        return whole;
    }
    whole + 1
}
