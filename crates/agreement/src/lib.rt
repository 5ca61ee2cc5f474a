// Whether a call gives what its record says: the answer, every byte of the output, and what comes with answer 0.
#![tactic(auto)]

ghost use Rattle.std.specs.Prelude.{◌≡◌, replicate};
ghost use Rattle.records.specs.Records.{part_bytes};
ghost use Rattle.agreement.specs.Agreement.{open_agrees, seal_agrees, summary_agrees, remove_agrees, flip_agrees};
ghost use Rattle.agreement.specs.Agreement.{call_agrees, case_agrees};

use expected::{answer_is, fields_are, output_is, ring_is};
use figures::{removal_is, summarised_is};
use layout::{COORDINATE_BYTES, Fields, TABLE_BYTES};
use records::{
    CALL_AT, Call, FILLER_AT, INPUT_AT, INPUT_LENGTH_AT, OUTPUT_LENGTH_AT, PART_BYTES,
    RECORD_BYTES, count, length_at, number, numbers,
};
use ring::Ring;

// The fields that are stored beside the refusal of an opening.
const NO_FIELDS: Fields = Fields {
    version: 0,
    points: 0,
    rows: 0,
    coordinates: [0; COORDINATE_BYTES],
    table: [0; TABLE_BYTES],
};

fn open_agrees(stored: &[u8; RECORD_BYTES], input: &[u8]) -> bool
    ensures { result ≡ open_agrees stored.now input.now }
{
    let opened = patch::open(input);
    answer_is(&opened, stored) && fields_are(opened.unwrap_or(NO_FIELDS), stored)
}

fn seal_agrees(stored: &[u8; RECORD_BYTES], input: &[u8], out: &mut [u8]) -> bool
    ensures { result ≡ seal_agrees stored.now input.now out.old }
{
    let sealed = patch::seal(input, out);
    answer_is(&sealed, stored) && output_is(out, stored)
}

fn summary_agrees(stored: &[u8; RECORD_BYTES], input: &[u8]) -> bool
    ensures { result ≡ summary_agrees stored.now input.now }
{
    summarised_is(patch::summary(input), stored)
}

fn remove_agrees(stored: &[u8; RECORD_BYTES], input: &[u8], out: &mut [u8]) -> bool
    ensures { result ≡ remove_agrees stored.now input.now out.old }
{
    let removed = patch::remove(input, number(stored, 0), number(stored, 1), out);
    let page = removed.map(|removed| removed.page);
    let ring = removed.map_or(Ring::EMPTY, |removed| removed.ring);
    removal_is(page, stored) && ring_is(ring, stored) && output_is(out, stored)
}

fn flip_agrees(stored: &[u8; RECORD_BYTES], input: &[u8], out: &mut [u8]) -> bool
    ensures { result ≡ flip_agrees stored.now input.now out.old }
{
    let n = count(stored);
    let given = numbers(stored);
    let flipped = patch::flip(input, &given[..n], out);
    answer_is(&flipped, stored) && output_is(out, stored)
}

// The call of a record; a number of no call agrees with nothing.
fn call_agrees(stored: &[u8; RECORD_BYTES], input: &[u8], out: &mut [u8]) -> bool
    ensures { result ≡ call_agrees stored.now input.now out.old }
{
    match Call::try_from(stored[CALL_AT]) {
        Ok(Call::Open) => open_agrees(stored, input),
        Ok(Call::Seal) => seal_agrees(stored, input, out),
        Ok(Call::Summary) => summary_agrees(stored, input),
        Ok(Call::Remove) => remove_agrees(stored, input, out),
        Ok(Call::Flip) => flip_agrees(stored, input, out),
        Err(_) => false,
    }
}

// The output before the call: one byte, repeated.
fn filled(byte: u8) -> [u8; PART_BYTES]
    ensures { result ≡ replicate part_bytes byte }
{
    [byte; PART_BYTES]
}

pub fn agrees(stored: &[u8; RECORD_BYTES]) -> bool
    ensures { result ≡ case_agrees stored.now }
{
    let input_end = INPUT_AT + length_at(stored, INPUT_LENGTH_AT);
    let n = length_at(stored, OUTPUT_LENGTH_AT);
    let mut out = filled(stored[FILLER_AT]);
    call_agrees(stored, &stored[INPUT_AT..input_end], &mut out[..n])
}
