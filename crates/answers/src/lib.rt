// The answers of all calls: done, or a refusal with its number.
#![tactic(auto)]

ghost use Rattle.std.specs.Prelude.{◌≡◌};
ghost use Rattle.answers.specs.Answers.{number_of};

// Why a call refuses: the number of the first test that applies.
// Kept: a number and not an enum of names, since the laws read a refusal by any number (`gives`), also by one that no test gives (rivals: 6).
#[derive(Clone, Copy, PartialEq, Eq)]
pub struct Refusal {
    pub number: u8,
}

impl Refusal {
    // A block or an output is not as long as it must be.
    pub const LENGTH: Refusal = Refusal { number: 1 };

    // A sum is wrong.
    pub const SUM: Refusal = Refusal { number: 2 };

    // The version is neither 1 nor 2.
    pub const NOT_A_VERSION: Refusal = Refusal { number: 3 };

    // There are more points or rows than there is room for.
    pub const COUNT: Refusal = Refusal { number: 4 };

    // A byte that must be zero has another value.
    pub const NOT_ZERO: Refusal = Refusal { number: 5 };

    // A row has a number that is not below the point count, or one twice.
    pub const ROW: Refusal = Refusal { number: 7 };

    // Two rows have one directed face.
    pub const FACE_TWICE: Refusal = Refusal { number: 8 };

    // An end of the edge, or a number of the face, is not below the point count, or two are equal.
    pub const BAD_NUMBER: Refusal = Refusal { number: 9 };

    // No row holds the edge, or the face.
    pub const NOT_HELD: Refusal = Refusal { number: 10 };

    // The links do not all close; removal: and do not make one open chain either; 2-3: one row only holds the face.
    pub const NOT_CLOSED: Refusal = Refusal { number: 11 };

    // The links make several closed circles.
    pub const CIRCLES: Refusal = Refusal { number: 12 };

    // m is below 3 or over 10; 3-2: m is not 3.
    pub const RING_LENGTH: Refusal = Refusal { number: 13 };

    // There would be more than 60 rows.
    pub const NO_ROOM: Refusal = Refusal { number: 14 };

    // No triangulation is admissible; 2-3: with the three rows the table would not keep the mesh rule.
    pub const BLOCKED: Refusal = Refusal { number: 15 };

    // None is better.
    pub const NONE_BETTER: Refusal = Refusal { number: 16 };

    // Both rows at the face have one apex.
    pub const ONE_APEX: Refusal = Refusal { number: 18 };

    // The chain is not flat.
    pub const NOT_FLAT: Refusal = Refusal { number: 19 };

    // The rows that go have more than one region.
    pub const TWO_REGIONS: Refusal = Refusal { number: 20 };

    // Flip: neither two numbers nor three are given.
    pub const NOT_TWO_OR_THREE: Refusal = Refusal { number: 21 };

    // A face stands in two rows, one of which marks it and the other does not.
    pub const MARKS_DISAGREE: Refusal = Refusal { number: 22 };

    // A marked face would go.
    pub const MARK_GOES: Refusal = Refusal { number: 23 };
}

// The number of an answer: 0 if it is done.
pub fn number<T>(answer: &Result<T, Refusal>) -> u8
    ensures { result ≡ number_of answer.now }
{
    match answer {
        Ok(_) => 0,
        Err(refusal) => refusal.number,
    }
}
