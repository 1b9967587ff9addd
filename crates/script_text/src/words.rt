// The words of a line: numbers, names and hexadecimal digits.
ghost use Rattle.std.specs.Char.{is_ascii_digit};
ghost use Rattle.std.specs.List.{list_all, position};
ghost use Rattle.std.specs.Option.{option_map};
ghost use Rattle.std.specs.Prelude.{◌≡◌, ◌≤◌, ◌<◌, ◌^◌, ◌==◌, IsTrue, IfSome, length};
ghost use Rattle.std.specs.Str.{all_ascii_digits};
ghost use Rattle.std.specs.Str.Parse.{digits_value};
ghost use Rattle.script_text.specs.Words.{parts_at, are_digits, number_in, name_in, digit_in, byte_in, just_bytes_in};

use arrayvec::ArrayVec;
use cxl_message::is_name;

/// The bytes before the first one that is `byte`, and those after it.
#[tactic(auto, unfolding(crate::specs::Words::parts_at))]
pub fn cut_at(bytes: &[u8], byte: u8) -> Option<(&[u8], &[u8])>
    ensures { option_map (λ parts. (parts.0.now, parts.1.now)) result ≡ parts_at byte bytes.now }
{
    let place = place_of(bytes, byte)?;
    Some((&bytes[..place], &bytes[place + 1..]))
}

/// Where the first such byte stands.
fn place_of(bytes: &[u8], byte: u8) -> Option<usize>
    ensures place { result ≡ position (λ b. b == byte) bytes.now }
    ensures within { IfSome result (λ place. place < length bytes.now) }
{
    bytes.iter().position(|b| *b == byte)
}

/// The number of a word of one to ten digits, with no leading zero but in `0`.
#[tactic(auto, unfolding(crate::specs::Words::number_in))]
pub fn number_of(word: &[u8]) -> Option<u64>
    ensures number { result ≡ number_in word.now }
    ensures below { IfSome result (λ n. n < 10 ^ 10) }
{
    if !is_number(word) {
        return None;
    }
    Some(value_of(word))
}

/// Whether a word is a number.
#[tactic(auto, using(crate::proofs::Numbers::all_ascii_digits_is))]
fn is_number(word: &[u8]) -> bool
    ensures { result ≡ are_digits word.now }
{
    if word.is_empty() || word.len() > 10 {
        return false;
    }
    if word.len() > 1 && word[0] == b'0' {
        return false;
    }
    all_digits(word)
}

/// Whether there are only decimal digits.
fn all_digits(word: &[u8]) -> bool
    ensures { result ≡ list_all is_ascii_digit word.now }
{
    word.iter().all(|digit| digit.is_ascii_digit())
}

/// The value of up to ten decimal digits.
#[tactic(auto, using(crate::proofs::Numbers::value_below, crate::proofs::Numbers::digit_there, crate::proofs::Numbers::value_more))]
fn value_of(digits: &[u8]) -> u64
    requires few { length digits.now ≤ 10 }
    requires digits { IsTrue (all_ascii_digits digits.now) }
    ensures value { result ≡ digits_value 10 digits.now }
    ensures below { result < 10 ^ 10 }
{
    let mut value = 0;
    for digit in digits {
        value = 10 * value + u64::from(*digit - b'0');
    }
    value
}

/// The name that a word is, if it is spelled as one.
pub fn name_of(word: &[u8]) -> Option<ArrayVec<u8, 32>>
    ensures { option_map (λ name. name.items) result ≡ name_in word.now }
{
    if !is_name(word) {
        return None;
    }
    let mut name = ArrayVec::new();
    let _fits = name.try_extend_from_slice(word);
    Some(name)
}

/// The bytes that a word of hexadecimal digits in lower case spells, each by two digits.
#[tactic(auto, unfolding(crate::specs::Words::just_bytes_in))]
pub fn bytes_of<const N: usize>(word: &[u8]) -> Option<[u8; N]>
    requires { N ≤ 64 }
    ensures { result ≡ just_bytes_in N word.now }
{
    if word.len() != 2 * N {
        return None;
    }
    let mut bytes = [0; N];
    for i in 0..N {
        bytes[i] = byte_of(word[2 * i], word[2 * i + 1])?;
    }
    Some(bytes)
}

/// The byte of two hexadecimal digits.
#[tactic(auto, unfolding(crate::specs::Words::byte_in))]
fn byte_of(high: u8, low: u8) -> Option<u8>
    ensures { result ≡ byte_in high low }
{
    Some(16 * digit_of(high)? + digit_of(low)?)
}

/// The value of a hexadecimal digit in lower case.
#[tactic(auto, unfolding(crate::specs::Words::digit_in))]
fn digit_of(digit: u8) -> Option<u8>
    ensures digit { result ≡ digit_in digit }
    ensures below { IfSome result (λ value. value < 16) }
{
    match digit {
        b'0'..=b'9' => Some(digit - b'0'),
        b'a'..=b'f' => Some(digit - b'a' + 10),
        _ => None,
    }
}
