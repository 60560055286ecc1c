//! Numbers in decimal digits.
#![tactic(auto)]

ghost use Rattle.std.specs.Prelude.{◌≡◌, ◌≤◌, IfSome};
ghost use Rattle.std.specs.Char.{is_ascii_digit};
ghost use Rattle.std.specs.List.{list_all};
ghost use Rattle.dc_path.specs.Numbers.{number_in};

use std::str;

// Whether all bytes are decimal digits.
fn are_digits(bytes: &[u8]) -> bool
    ensures { result ≡ list_all is_ascii_digit bytes.now }
{
    bytes.iter().all(|byte| byte.is_ascii_digit())
}

// The number of 64 bits that decimal digits write.
fn read_digits(digits: &[u8]) -> Option<u64>
    ensures { result ≡ number_in 0 18446744073709551615 digits.now }
{
    if !are_digits(digits) {
        return None;
    }
    match str::from_utf8(digits) {
        Ok(text) => text.parse().ok(),
        Err(_) => None,
    }
}

/// The number within two bounds, both included, that decimal digits write; `None` for every other text.
///
/// Leading zeros are allowed, signs are not.
pub fn read_number(digits: &[u8], least: u64, most: u64) -> Option<u64>
    ensures value { result ≡ number_in least most digits.now }
    ensures range { IfSome result (λ number. (least ≤ number) × (number ≤ most)) }
{
    match read_digits(digits) {
        Some(number) if least <= number && number <= most => Some(number),
        _ => None,
    }
}
