// Text at the end of a vector that has room for it.
ghost use Rattle.std.specs.Prelude.{◌≡◌, ◌+◌, ◌≤◌, ◌++◌, decimal, length, vec_len, vec_capacity};
ghost use Rattle.std.specs.Int.{to_be_bytes, w64};
ghost use Rattle.hex.specs.Hex.{encode_lower};
ghost use Rattle.cxl_view.specs.Events.{bytes_field, field, host_text};

use hex::encode_to_slice;
use itoa::Buffer;

/// How many digits a number has at most.
pub const DIGITS: usize = 20;

/// Appends the bytes. There is room for them.
#[inline(always)]
pub fn put(out: &mut Vec<u8>, bytes: &[u8])
    requires { vec_len out.old + length bytes.now ≤ vec_capacity out.old }
    ensures items { out.new.items ≡ out.old.items ++ bytes.now }
    ensures len { vec_len out.new ≡ vec_len out.old + length bytes.now }
    ensures capacity { vec_capacity out.old ≤ vec_capacity out.new }
{
    let _ = out.extend_from_slice(bytes);
}

/// Appends a number in decimal digits. There is room for it.
#[inline(always)]
#[tactic(auto, using(crate::proofs::Digits::one_digit))]
pub fn put_number(out: &mut Vec<u8>, number: u64)
    requires { vec_len out.old + DIGITS ≤ vec_capacity out.old }
    ensures items { out.new.items ≡ out.old.items ++ decimal number }
    ensures len { vec_len out.new ≤ vec_len out.old + DIGITS }
    ensures capacity { vec_capacity out.old ≤ vec_capacity out.new }
{
    if number < 10 {
        put(out, &[b'0' + number as u8]);
        return;
    }
    let mut buffer = Buffer::new();
    put(out, buffer.format(number).as_bytes());
}

/// Appends a word and a number. There is room for them.
#[inline(always)]
pub fn put_field(out: &mut Vec<u8>, word: &[u8], number: u64)
    requires { vec_len out.old + length word.now + DIGITS ≤ vec_capacity out.old }
    ensures items { out.new.items ≡ out.old.items ++ field word.now number }
    ensures len { vec_len out.new ≤ vec_len out.old + length word.now + DIGITS }
    ensures capacity { vec_capacity out.old ≤ vec_capacity out.new }
{
    put(out, word);
    put_number(out, number);
}

/// Appends a host. There is room for it.
#[inline(always)]
pub fn put_host(out: &mut Vec<u8>, host: u8)
    requires { vec_len out.old + 1 + DIGITS ≤ vec_capacity out.old }
    ensures items { out.new.items ≡ out.old.items ++ host_text host }
    ensures len { vec_len out.new ≤ vec_len out.old + 1 + DIGITS }
    ensures capacity { vec_capacity out.old ≤ vec_capacity out.new }
{
    put_field(out, b"h", u64::from(host));
}

/// Appends a word and the 64 bytes of a line, as hexadecimal digits. There is room for them.
#[inline(always)]
pub fn put_line_bytes(out: &mut Vec<u8>, word: &[u8], bytes: &[u8; 64])
    requires { vec_len out.old + length word.now + 128 ≤ vec_capacity out.old }
    ensures items { out.new.items ≡ out.old.items ++ bytes_field word.now bytes.now }
    ensures len { vec_len out.new ≡ vec_len out.old + length word.now + 128 }
    ensures capacity { vec_capacity out.old ≤ vec_capacity out.new }
{
    put(out, word);
    put(out, &digits_of_line(bytes));
}

/// Appends a word and the eight bytes of a word's value, the highest first, as hexadecimal digits. There is room for them.
#[inline(always)]
pub fn put_value(out: &mut Vec<u8>, word: &[u8], value: u64)
    requires { vec_len out.old + length word.now + 16 ≤ vec_capacity out.old }
    ensures items { out.new.items ≡ out.old.items ++ bytes_field word.now (to_be_bytes w64 value) }
    ensures len { vec_len out.new ≡ vec_len out.old + length word.now + 16 }
    ensures capacity { vec_capacity out.old ≤ vec_capacity out.new }
{
    put(out, word);
    put(out, &digits_of_word(&value.to_be_bytes()));
}

/// The hexadecimal digits of 64 bytes.
fn digits_of_line(bytes: &[u8; 64]) -> [u8; 128]
    ensures { result ≡ encode_lower bytes.now }
{
    let mut digits = [0; 128];
    let _fits = encode_to_slice(bytes, &mut digits);
    digits
}

/// The hexadecimal digits of eight bytes.
fn digits_of_word(bytes: &[u8; 8]) -> [u8; 16]
    ensures { result ≡ encode_lower bytes.now }
{
    let mut digits = [0; 16];
    let _fits = encode_to_slice(bytes, &mut digits);
    digits
}
