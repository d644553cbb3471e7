//! Numbers in decimal, two digits at a time, and octets in hexadecimal.

ghost use Rattle.std.specs.Prelude.{◌≡◌, ◌+◌, ◌/◌, ◌%◌, ◌<◌, ◌≤◌, ◌∷◌, ◌++◌, false, length, take, drop};
ghost use Rattle.std.specs.Fmt.{decimal, digit_glyph};
ghost use Rattle.mdns_browse.specs.RecordText.{hex_octet};

// The two digits of each number below a hundred: a look-up costs less than dividing by ten again.
static PAIRS: [u8; 200] =
    *b"0001020304050607080910111213141516171819202122232425262728293031323334353637383940414243444546474849\
      5051525354555657585960616263646566676869707172737475767778798081828384858687888990919293949596979899";

// Writes both digits of a number below a hundred at an index.
#[tactic(auto, using(crate::proofs::DigitLemmas::pair_at, crate::proofs::DigitLemmas::pair_written))]
fn write_pair(pair: u64, text: &mut [u8], at: usize)
    requires { (pair < 100) × (at + 2 ≤ length text.old) }
    ensures written { drop at text.new ≡ (48 + pair / 10) ∷ (48 + pair % 10) ∷ drop (at + 2) text.old }
    ensures before { take at text.new ≡ take at text.old }
{
    let tens = pair as usize * 2;
    text[at] = PAIRS[tens];
    text[at + 1] = PAIRS[tens + 1];
}

// Writes a number below a hundred before `end`, with one digit if it is below ten; returns the index of the first.
#[tactic(auto, using(std::proofs::lemmas::Fmt::decimal_digit, crate::proofs::DigitLemmas::for_write_first))]
fn write_first(number: u64, text: &mut [u8], end: usize) -> usize
    requires { (number < 100) × (length (decimal number) ≤ end) × (end ≤ length text.old) }
    ensures start { result + length (decimal number) ≡ end }
    ensures written { drop result text.new ≡ decimal number ++ drop end text.old }
    ensures before { take result text.new ≡ take result text.old }
{
    if number < 10 {
        text[end - 1] = b'0' + number as u8;
        return end - 1;
    }
    write_pair(number, text, end - 2);
    end - 2
}

/// Writes the decimal digits of a number before `end`, from the last to the first; returns the index of the first.
#[tactic(auto, using(crate::proofs::DigitLemmas::for_write_decimal))]
pub(crate) fn write_decimal(number: u64, text: &mut [u8], end: usize) -> usize
    requires { (length (decimal number) ≤ end) × (end ≤ length text.old) }
    ensures start { result + length (decimal number) ≡ end }
    ensures written { drop result text.new ≡ decimal number ++ drop end text.old }
    ensures before { take result text.new ≡ take result text.old }
{
    let mut left = number;
    let mut at = end;
    while left >= 100 {
        at -= 2;
        write_pair(left % 100, text, at);
        left /= 100;
    }
    write_first(left, text, at)
}

// Returns a hexadecimal digit, in lower case.
fn hexadecimal(digit: u8) -> u8
    requires { digit < 16 }
    ensures { result ≡ digit_glyph false digit }
{
    if digit < 10 {
        b'0' + digit
    } else {
        b'a' - 10 + digit
    }
}

/// Writes both hexadecimal digits of an octet before `end`; returns the index of the first.
#[tactic(auto, using(crate::proofs::DigitLemmas::pair_written))]
pub(crate) fn write_octet(octet: u8, text: &mut [u8], end: usize) -> usize
    requires { (2 ≤ end) × (end ≤ length text.old) }
    ensures start { result + 2 ≡ end }
    ensures written { drop result text.new ≡ hex_octet octet ++ drop end text.old }
{
    text[end - 2] = hexadecimal(octet / 16);
    text[end - 1] = hexadecimal(octet % 16);
    end - 2
}
