//! The values of options: numbers and addresses.

ghost use Rattle.std.specs.Prelude.{◌≡◌, ◌≤◌, IfSome};
ghost use Rattle.command_words.specs.Values.{number, plain_number, are_digits, is_numeral, is_address, are_printed};

/// The number of 1 to 10 digits that a word is, where it is one of these and those between.
pub fn read_number(word: &str, least: u32, most: u32) -> Option<u32>
    ensures number { result ≡ number least most word.now }
    ensures from { IfSome result (λ n. least ≤ n) }
    ensures to { IfSome result (λ n. n ≤ most) }
{
    if !is_numeral(word) {
        return None;
    }
    let Ok(number) = word.parse::<u32>() else {
        return None;
    };
    if least <= number && number <= most {
        Some(number)
    } else {
        None
    }
}

/// The same without leading zeros.
pub(crate) fn read_plain_number(word: &str, least: u32, most: u32) -> Option<u32>
    ensures number { result ≡ plain_number least most word.now }
    ensures to { IfSome result (λ n. n ≤ most) }
{
    let bytes = word.as_bytes();
    if bytes.len() > 1 && bytes[0] == b'0' {
        return None;
    }
    read_number(word, least, most)
}

/// Whether a word is 1 to 10 digits.
fn is_numeral(word: &str) -> bool
    ensures { result ≡ is_numeral word.now }
{
    1 <= word.len() && word.len() <= 10 && are_digits(word.as_bytes())
}

/// Whether each byte is a digit.
fn are_digits(bytes: &[u8]) -> bool
    ensures { result ≡ are_digits bytes.now }
{
    bytes.iter().all(|byte| b'0' <= *byte && *byte <= b'9')
}

/// Whether a word is an address: 1 to 200 printed ASCII bytes, of which the first isn't `-`.
pub fn is_address(word: &str) -> bool
    ensures { result ≡ is_address word.now }
{
    let bytes = word.as_bytes();
    1 <= bytes.len() && bytes.len() <= 200 && bytes[0] != b'-' && are_printed(bytes)
}

/// Whether each byte is one that is printed.
fn are_printed(bytes: &[u8]) -> bool
    ensures { result ≡ are_printed bytes.now }
{
    bytes.iter().all(|byte| b'!' <= *byte && *byte <= b'~')
}
