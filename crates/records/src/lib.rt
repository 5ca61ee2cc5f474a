// The parts of a record; numbers have their low byte first, and what a call has not, or a refusal gives not, is zero.
//
//     0 call                  4 bytes of the output     8 edge, or numbers of a flip    98 how many a flip is given
//     1 answer                6 filler of the output   32 summary or page              112 input
//     2 bytes of the input    7 m                      88 ring                         632 output after the call, of open the fields
#![tactic(auto)]

ghost use Rattle.std.specs.Prelude.{◌+◌, ◌≤◌, ◌<◌, ◌≡◌, length};
ghost use Rattle.records.specs.Records.{part_in, number_at, number_in, four_numbers, count_in, figure_in, length_at};
ghost use Rattle.records.specs.StoredCalls.{HasNumber};

use std::fmt;

// The call of a record, which is stored as its number from 0 on.
#[derive(Clone, Copy)]
pub enum Call {
    Open,
    Seal,
    Summary,
    Remove,
    Flip,
}

// A number of no call.
#[derive(Clone, Copy)]
pub struct UnknownCall(pub u8);

impl Call {
    pub const ALL: [Call; 5] = [
        Call::Open,
        Call::Seal,
        Call::Summary,
        Call::Remove,
        Call::Flip,
    ];
}

impl TryFrom<u8> for Call {
    type Error = UnknownCall;

    ghost try_from_gives = { HasNumber };

    fn try_from(number: u8) -> Result<Self, UnknownCall> {
        match number {
            0 => Ok(Call::Open),
            1 => Ok(Call::Seal),
            2 => Ok(Call::Summary),
            3 => Ok(Call::Remove),
            4 => Ok(Call::Flip),
            _ => Err(UnknownCall(number)),
        }
    }
}

impl fmt::Display for Call {
    fn fmt<W: fmt::Write>(&self, f: &mut fmt::Formatter<W>) -> fmt::Result {
        f.write_str(match self {
            Call::Open => "open",
            Call::Seal => "seal",
            Call::Summary => "summary",
            Call::Remove => "remove",
            Call::Flip => "flip",
        })
    }
}

pub const CALL_AT: usize = 0;

pub const ANSWER_AT: usize = 1;

pub const INPUT_LENGTH_AT: usize = 2;

pub const OUTPUT_LENGTH_AT: usize = 4;

pub const FILLER_AT: usize = 6;

pub const M_AT: usize = 7;

const NUMBERS_AT: usize = 8;

// The most numbers of a flip; the fourth stands where other calls have figures.
const MOST_NUMBERS: usize = 4;

const FIGURES_AT: usize = 32;

pub const RING_AT: usize = 88;

pub const RING_END: usize = 98;

const COUNT_AT: usize = 98;

pub const INPUT_AT: usize = 112;

pub const OUTPUT_AT: usize = 632;

// The most bytes of an input or an output.
pub const PART_BYTES: usize = 520;

pub const RECORD_BYTES: usize = 1152;

// N bytes from a place on.
fn bytes_at<const N: usize>(stored: &[u8], at: usize) -> [u8; N]
    requires { at + N ≤ length stored.now }
    ensures { result ≡ part_in stored.now at N }
{
    *stored[at..].first_chunk().unwrap()
}

// The number in eight bytes.
fn number_at(stored: &[u8], at: usize) -> u64
    requires { at + 8 ≤ length stored.now }
    ensures { result ≡ number_at stored.now at }
{
    u64::from_le_bytes(bytes_at(stored, at))
}

// Number i of the edge or the flip.
pub fn number(stored: &[u8; RECORD_BYTES], i: usize) -> usize
    requires { i < 4 }
    ensures { result ≡ number_in stored.now i }
{
    number_at(stored, NUMBERS_AT + 8 * i) as usize
}

// Room for the numbers of a flip, all of it filled.
pub fn numbers(stored: &[u8; RECORD_BYTES]) -> [usize; MOST_NUMBERS]
    ensures { result ≡ four_numbers stored.now }
{
    [
        number(stored, 0),
        number(stored, 1),
        number(stored, 2),
        number(stored, 3),
    ]
}

// How many of them the flip is given.
pub fn count(stored: &[u8; RECORD_BYTES]) -> usize
    ensures { result ≡ count_in stored.now }
{
    (stored[COUNT_AT] as usize).min(MOST_NUMBERS)
}

// Number i of the summary, or of the bits of the page row.
pub fn figure(stored: &[u8; RECORD_BYTES], i: usize) -> u64
    requires { i < 7 }
    ensures { result ≡ figure_in stored.now i }
{
    number_at(stored, FIGURES_AT + 8 * i)
}

// The length of a part; one that is too large is the most that a part can have.
pub fn length_at(stored: &[u8], at: usize) -> usize
    requires { at + 2 ≤ length stored.now }
    ensures { result ≡ length_at stored.now at }
{
    (u16::from_le_bytes(bytes_at(stored, at)) as usize).min(PART_BYTES)
}
