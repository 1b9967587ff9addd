// The words of the command line.
ghost use Rattle.std.specs.Prelude.{◌≡◌, ◌≢◌, ◌↔◌, ◌≤◌, IfSome, IsTrue, None, decimal, string_bytes, ℕ};
ghost use Rattle.script_text.specs.declared.limits.TheConstants.{MAX_OPERATIONS};
ghost use Rattle.cxlmem.specs.CommandLine.{IsCheck, IsDrive, IsLoad, IsUnbuilt};

use itoa::Buffer;
use script_text::MAX_OPERATIONS;

/// Whether the words are the single word `drive`.
pub fn is_drive(words: &[String]) -> bool
    ensures { IsTrue result ↔ IsDrive words.now }
{
    match words {
        [word] => is_text(word, "drive"),
        _ => false,
    }
}

/// Whether the words are the single word `check`.
pub fn is_check(words: &[String]) -> bool
    ensures { IsTrue result ↔ IsCheck words.now }
{
    match words {
        [word] => is_text(word, "check"),
        _ => false,
    }
}

/// Whether the words are a form that isn't built.
pub fn is_unbuilt(words: &[String]) -> bool
    ensures { IsTrue result ↔ IsUnbuilt words.now }
{
    match words {
        [word] => is_text(word, "view") || is_text(word, "run"),
        _ => false,
    }
}

/// The number of operations, if the words are `load` and a number.
pub fn load_count(words: &[String]) -> Option<u32>
    ensures load { IfSome result (λ n. IsLoad words.now n) }
    ensures no_load { (n : ℕ) → IsLoad words.now n → result ≢ None }
{
    match words {
        [word, count] if is_text(word, "load") => count_of(count),
        _ => None,
    }
}

/// Whether a word is this text.
fn is_text(word: &String, text: &str) -> bool
    ensures { IsTrue result ↔ (string_bytes word.now ≡ text.now) }
{
    word.as_str() == text
}

/// The number that a word spells: a decimal number up to the most operations, without leading zeros.
fn count_of(word: &String) -> Option<u32>
    ensures number { IfSome result (λ n. (n ≤ MAX_OPERATIONS) × (string_bytes word.now ≡ decimal n)) }
    ensures no_number { (n : ℕ) → n ≤ MAX_OPERATIONS → string_bytes word.now ≡ decimal n → result ≢ None }
{
    let Ok(number) = word.as_str().parse::<u32>() else {
        return None;
    };
    if number <= MAX_OPERATIONS && is_text(word, Buffer::new().format(number)) {
        Some(number)
    } else {
        None
    }
}
