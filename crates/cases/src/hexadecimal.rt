// Bytes that are written in hexadecimal.
ghost use Rattle.std.specs.Prelude.{◌≡◌, IfOk, Ok};
ghost use Rattle.hex.specs.Hex.{decode_of, hex_digit_value};
ghost use Rattle.cases.specs.Hexadecimal.{digits, whole_pairs};

use std::alloc::{AllocError, Global};

// The bytes that pairs of hexadecimal digits write. Another character, and a last digit without a second, is passed over.
pub fn from_hex(heap: Global, text: &str) -> Result<Vec<u8>, AllocError>
    ensures bytes { IfOk result (λ v. decode_of (whole_pairs (digits text.now)) ≡ Ok v.items) }
{
    let mut bytes = Vec::new(heap);
    let mut high = None;
    for digit in text.bytes().filter_map(digit_value) {
        match high.take() {
            None => high = Some(digit),
            Some(high) => bytes.push(high * 16 + digit)?,
        }
    }
    Ok(bytes)
}

// The value of a hexadecimal digit, in either case. Another character has none.
fn digit_value(byte: u8) -> Option<u8>
    ensures { result ≡ hex_digit_value byte }
{
    match byte {
        b'0'..=b'9' => Some(byte - b'0'),
        b'a'..=b'f' => Some(byte - b'a' + 10),
        b'A'..=b'F' => Some(byte - b'A' + 10),
        _ => None,
    }
}
