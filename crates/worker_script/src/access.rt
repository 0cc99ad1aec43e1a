ghost use Rattle.std.specs.Prelude.{◌≡◌, ◌<◌, ◌≤◌, IfSome, length};
ghost use Rattle.worker_script.specs.Values.{hex_digit, hex_after, known_access, access};

use sid_core::ACCESS_MASK;

// What a hexadecimal digit of either case stands for.
fn hex_digit(byte: u8) -> Option<u32>
    ensures small { IfSome result (λ digit. digit < 16) }
    ensures value { result ≡ hex_digit byte }
{
    if b'0' <= byte && byte <= b'9' {
        Some(u32::from(byte - b'0'))
    } else if b'a' <= byte && byte <= b'f' {
        Some(u32::from(byte - 87))
    } else if b'A' <= byte && byte <= b'F' {
        Some(u32::from(byte - 55))
    } else {
        None
    }
}

// What hexadecimal digits stand for.
fn hex_value(digits: &[u8]) -> Option<u32>
    requires { length digits.now ≤ 8 }
    ensures { result ≡ hex_after 0 digits.now }
{
    let mut value = 0u64;
    for byte in digits {
        value = 16 * value + u64::from(hex_digit(*byte)?);
    }
    Some(value as u32)
}

fn known(bits: u32) -> Option<u32>
    ensures { result ≡ known_access (Some bits) }
{
    if 0 < bits && bits & ACCESS_MASK == bits {
        Some(bits)
    } else {
        None
    }
}

/// The access rights that a token spells.
#[tactic(auto, unfolding(crate::specs::Values::access))]
pub(crate) fn access(token: &[u8]) -> Option<u32>
    ensures { result ≡ access token.now }
{
    match token {
        [b'0', b'x', digits @ ..] => {
            if digits.is_empty() || digits.len() > 8 {
                return None;
            }
            let bits = hex_value(digits)?;
            known(bits)
        }
        _ => None,
    }
}
