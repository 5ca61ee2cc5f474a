// What a call gives in bytes, held against what its record stores: the answer, the output, the ring and the fields.
#![tactic(auto)]

ghost use Rattle.std.specs.Prelude.{◌≡◌, eqb};
ghost use Rattle.answers.specs.Answers.{number_of};
ghost use Rattle.records.specs.Records.{answer_in};
ghost use Rattle.expected.specs.Expected.{ring_is, fields_are, output_is};

use answers::Refusal;
use layout::{BODY_BYTES, Fields, POINTS_AT};
use records::{ANSWER_AT, M_AT, OUTPUT_AT, RECORD_BYTES, RING_AT, RING_END};
use ring::Ring;
use rows::ROWS_AT;

pub fn answer_is<T>(answer: &Result<T, Refusal>, stored: &[u8; RECORD_BYTES]) -> bool
    ensures { result ≡ eqb (number_of answer.now) (answer_in stored.now) }
{
    answers::number(answer) == stored[ANSWER_AT]
}

pub fn output_is(out: &[u8], stored: &[u8; RECORD_BYTES]) -> bool
    ensures { result ≡ output_is out.now stored.now }
{
    stored[OUTPUT_AT..].starts_with(out)
}

pub fn ring_is(ring: Ring, stored: &[u8; RECORD_BYTES]) -> bool
    ensures { result ≡ ring_is ring stored.now }
{
    ring.m == stored[M_AT] && ring.v[..] == stored[RING_AT..RING_END]
}

// The fields are those that are stored in their places of the block.
pub fn fields_are(fields: Fields, stored: &[u8; RECORD_BYTES]) -> bool
    ensures { result ≡ fields_are fields stored.now }
{
    fields.version == stored[OUTPUT_AT]
        && fields.points == stored[OUTPUT_AT + 1]
        && fields.rows == stored[OUTPUT_AT + 2]
        && fields.coordinates[..] == stored[OUTPUT_AT + POINTS_AT..OUTPUT_AT + ROWS_AT]
        && fields.table[..] == stored[OUTPUT_AT + ROWS_AT..OUTPUT_AT + BODY_BYTES]
}
