//! When and how a simulated command ends.
ghost use Rattle.std.specs.Prelude.{◌≡◌, ◌≤◌, length, true};
ghost use Rattle.std.specs.Char.{is_ascii_digit};
ghost use Rattle.std.specs.List.{list_all};
ghost use Rattle.std.specs.Str.{bytes_eq};
ghost use Rattle.std.specs.Str.Parse.{digits_value};
ghost use Rattle.shells.specs.Endings.{seconds_of, after, ending_of_words, ending_of};

use crate::ends::Ending;
use job_spec::JobSpec;
use lists::Bytes;

/// Whether a word is this one.
fn is_word(word: &Bytes, wanted: &[u8]) -> bool
    ensures { result ≡ bytes_eq word.now wanted.now }
{
    word.as_slice() == wanted
}

/// Whether all bytes are decimal digits.
fn are_digits(text: &[u8]) -> bool
    ensures { result ≡ list_all is_ascii_digit text.now }
{
    text.iter().all(|byte| byte.is_ascii_digit())
}

/// The number that at most ten digits write.
fn number_of(digits: &[u8]) -> u64
    requires short { length digits.now ≤ 10 }
    requires digits { list_all is_ascii_digit digits.now ≡ true }
    ensures { result ≡ digits_value 10 digits.now }
{
    let mut number = 0u64;
    for digit in digits {
        number = number * 10 + u64::from(*digit - b'0');
    }
    number
}

/// The number that one to ten digits write.
fn seconds_of(text: &[u8]) -> Option<u64>
    ensures { result ≡ seconds_of text.now }
{
    if text.is_empty() || 10 < text.len() {
        return None;
    }
    if !are_digits(text) {
        return None;
    }
    Some(number_of(text))
}

/// So many seconds after the start, if that is said, and well.
fn after(start: u64, seconds: Option<u64>) -> Ending
    ensures { result ≡ after start seconds }
{
    Ending::At {
        second: start.saturating_add(seconds.unwrap_or(0)),
        status: 0,
    }
}

/// How a command of these words ends that starts at this second.
fn ending_of_words(words: &[Bytes], start: u64) -> Ending
    ensures { result ≡ ending_of_words words.now start }
{
    match words {
        [word] => if is_word(word, b"false") {
            Ending::At {
                second: start,
                status: 256,
            }
        } else {
            after(start, None)
        },
        [first, second, rest @ ..] => {
            if is_word(first, b"flux") && is_word(second, b"broker") {
                return Ending::Child;
            }
            if is_word(first, b"sleep") && rest.is_empty() {
                return after(start, seconds_of(second.as_slice()));
            }
            after(start, None)
        }
        _ => after(start, None),
    }
}

/// When and how a job's command ends that starts at this second: `sleep` and a number of one to ten
/// digits so many seconds later (at most 2^64 - 1), `false` alone at once with status 256, `flux
/// broker` with its instance, and any other at once.
#[tactic(auto, unfolding(crate::specs::Endings::ending_of))]
pub fn ending(spec: &JobSpec, start: u64) -> Ending
    ensures { result ≡ ending_of spec.now start }
{
    ending_of_words(spec.command.as_slice(), start)
}
