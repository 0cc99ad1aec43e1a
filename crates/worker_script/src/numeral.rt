ghost use Rattle.std.specs.Prelude.{◌≡◌, ◌≤◌, ◌^◌, ◌-◌, cond, MatchOption, IfSome, Some, None};
ghost use Rattle.std.specs.List.{list_all};
ghost use Rattle.worker_script.specs.Values.{value, is_digit, is_numeral, is_number, is_u32, is_u64};

/// Whether a token is made of digits alone.
pub(crate) fn are_digits(token: &[u8]) -> bool
    ensures { result ≡ list_all is_digit token.now }
{
    token.iter().all(|b| b'0' <= *b && *b <= b'9')
}

#[tactic(auto, unfolding(crate::specs::Values::is_numeral))]
fn is_numeral(token: &[u8]) -> bool
    ensures { result ≡ is_numeral token.now }
{
    1 <= token.len() && token.len() <= 20 && are_digits(token)
}

// The number that digits stand for, if it has at most 64 bits.
#[tactic(auto, unfolding(crate::specs::Values::value))]
fn value_of(digits: &[u8]) -> Option<u64>
    ensures { MatchOption result (2 ^ 64 ≤ value digits.now) (λ n. n ≡ value digits.now) }
{
    let mut value = 0u64;
    for digit in digits {
        let digit = u64::from(digit.saturating_sub(b'0'));
        value = value.checked_mul(10)?.checked_add(digit)?;
    }
    Some(value)
}

/// The number that a token of 1 to 20 decimal digits spells, if it lies from `low` to `high`. Leading zeros are allowed.
#[tactic(auto, unfolding(crate::specs::Values::is_number))]
pub fn number(low: u64, high: u64, token: &[u8]) -> Option<u64>
    ensures within { IfSome result (λ n. n ≤ high) }
    ensures value { result ≡ cond (is_number low high token.now) (Some (value token.now)) None }
{
    if !is_numeral(token) {
        return None;
    }
    let value = value_of(token)?;
    if low <= value && value <= high {
        Some(value)
    } else {
        None
    }
}

/// The number of at most 32 bits that a token spells.
pub(crate) fn number_u32(token: &[u8]) -> Option<u32>
    ensures { result ≡ cond (is_u32 token.now) (Some (value token.now)) None }
{
    let value = number(0, 0xFFFF_FFFF, token)?;
    Some(value as u32)
}

/// The number of at most 32 bits, and not 0, that a token spells.
pub(crate) fn positive_u32(token: &[u8]) -> Option<u32>
    ensures { result ≡ cond (is_number 1 (2 ^ 32 - 1) token.now) (Some (value token.now)) None }
{
    let value = number(1, 0xFFFF_FFFF, token)?;
    Some(value as u32)
}

/// The number of at most 64 bits that a token spells.
pub(crate) fn number_u64(token: &[u8]) -> Option<u64>
    ensures { result ≡ cond (is_u64 token.now) (Some (value token.now)) None }
{
    number(0, 0xFFFF_FFFF_FFFF_FFFF, token)
}
