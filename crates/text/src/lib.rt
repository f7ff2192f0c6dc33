// Numbers from text, as the formats of this repository write them.
#![tactic(auto)]

ghost use Rattle.std.specs.Prelude.{◌≡◌};
ghost use Rattle.std.specs.Char.{digit_value};
ghost use Rattle.std.specs.Option.{option_map};
ghost use Rattle.text.specs.Numbers.{number, leading};

// What a byte stands for as a digit: 0 to 35, and 36 where it is none.
fn digit(byte: u8) -> u32
    ensures { result ≡ digit_value byte }
{
    match byte {
        b'0'..=b'9' => u32::from(byte - b'0'),
        b'a'..=b'z' => u32::from(byte - b'a') + 10,
        b'A'..=b'Z' => u32::from(byte - b'A') + 10,
        _ => 36,
    }
}

/// The number that the digits at a text's front write, and what follows them. None where no digit stands there, where the number is
/// 2^32 or more (what follows is then not looked at), or in a radix that is not from 2 to 36.
// inlined: each caller has one radix
#[inline(always)]
pub fn leading(radix: u32, text: &[u8]) -> Option<(u32, &[u8])>
    ensures { option_map (λ p. (p.0, p.1.now)) result ≡ leading radix text.now }
{
    if radix < 2 || radix > 36 {
        return None;
    }
    let mut number: u32 = 0;
    let mut count = 0;
    for byte in text {
        let digit = digit(*byte);
        if digit >= radix {
            break;
        }
        number = number.checked_mul(radix)?.checked_add(digit)?;
        count += 1;
    }
    if count == 0 {
        return None;
    }
    Some((number, &text[count..]))
}

/// The number below 2^32 that digits of a radix from 2 to 36 write; none in any other radix. Nothing else may stand in the text, nor a sign.
#[inline]
pub fn number(radix: u32, text: &[u8]) -> Option<u32>
    ensures { result ≡ number radix text.now }
{
    match leading(radix, text)? {
        (number, []) => Some(number),
        _ => None,
    }
}
