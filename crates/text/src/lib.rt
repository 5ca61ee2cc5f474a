// A text: bytes in the front of an array of 512; a byte, a word or a number is put behind them.
#![tactic(auto)]

ghost use Rattle.std.specs.Prelude.{[], ◌∷◌, ◌≡◌, ◌<◌};
ghost use Rattle.text.specs.Decimal.{digit as digit_of, decimal};
ghost use Rattle.text.specs.Steps.{held, Behind};

// A text holds at most so many bytes; the longest printout has fewer.
pub const TEXT_BYTES: usize = 512;

// The first n bytes; those behind them are zero.
// Kept: no heap, and no String, which can run out of memory: `printout::print` and `flip_printout::print` cannot fail.
#[derive(Clone, Copy)]
pub struct Text {
    pub n: usize,
    pub bytes: [u8; TEXT_BYTES],
}

// No bytes.
pub fn no_text() -> Text
    ensures { result ≡ held [] }
{
    Text {
        n: 0,
        bytes: [0; TEXT_BYTES],
    }
}

// A byte behind the text; a full text stays as it is.
pub fn put_byte(text: Text, byte: u8) -> Text
    ensures { Behind text (byte ∷ []) result }
{
    let n = text.n;
    if TEXT_BYTES <= n {
        return text;
    }
    let mut bytes = text.bytes;
    bytes[n] = byte;
    Text { n: n + 1, bytes }
}

// The bytes of a word behind the text.
pub fn put_word(text: Text, word: &[u8]) -> Text
    ensures { Behind text word.now result }
{
    let mut longer = text;
    for byte in word {
        longer = put_byte(longer, *byte);
    }
    longer
}

// The base of the numbers printed, and the byte of the digit 0.
const TEN: u16 = 10;

const ZERO: u8 = 48;

// The digit of a number below ten.
fn digit(n: u16) -> u8
    requires { n < 10 }
    ensures { result ≡ digit_of n }
{
    ZERO + n as u8
}

// A number in decimal behind the text: its tenth, then its last digit.
pub fn put_decimal(text: Text, n: u16) -> Text
    ensures { Behind text (decimal n) result }
{
    if n < TEN {
        return put_byte(text, digit(n));
    }
    put_byte(put_decimal(text, n / TEN), digit(n % TEN))
}
