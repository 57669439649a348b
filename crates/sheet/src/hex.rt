// Hexadecimal digits.
ghost use Rattle.std.specs.Prelude.{◌≡◌, ◌<◌};
ghost use Rattle.sheet.specs.Hex.{is_digit as is_hexadecimal, digit as digit_value, byte as byte_value};

// Whether `b` is one of 0-9 and A-F.
pub(crate) fn is_digit(b: u8) -> bool
    ensures { result ≡ is_hexadecimal b }
{
    matches!(b, b'0'..=b'9' | b'A'..=b'F')
}

// What a digit stands for; 0 for anything else.
fn digit(b: u8) -> u8
    ensures value { result ≡ digit_value b }
    ensures small { result < 16 }
{
    match b {
        b'0'..=b'9' => b - b'0',
        b'A'..=b'F' => b - b'A' + 10,
        _ => 0,
    }
}

// The byte that two digits write.
pub(crate) fn byte(high: u8, low: u8) -> u8
    ensures { result ≡ byte_value high low }
{
    16 * digit(high) + digit(low)
}
