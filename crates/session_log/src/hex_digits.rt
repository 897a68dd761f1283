//! Hexadecimal digits. Most packets end in many zeros, which are skipped sixteen digits or bytes at a time. The loops
//! over digits contain no branches, so that they are compiled to vector instructions; the loops of the crate `hex`
//! aren't.
ghost use Rattle.std.specs.Prelude.{◌≡◌, ◌++◌, ◌*◌, ◌<◌, ◌≤◌, ℕ, true, length, replicate, slice_index};
ghost use Rattle.std.specs.Prelude.{None, Some, MatchOption};
ghost use Rattle.hex.specs.Hex.{encode_lower, hex_digit_value, lower_digits};
ghost use Rattle.session_log.specs.Grammar.{decoded_bytes, value_below_16, AreValues};

/// Returns whether all bytes of a group equal `byte`.
fn are_all<const N: usize>(group: &[u8; N], byte: u8) -> bool
    requires { N ≤ 32 }
    ensures { result ≡ true → group.now ≡ replicate N byte }
{
    *group == [byte; N]
}

/// Returns the bytes without the groups of `N` bytes at their end that all equal `byte`.
fn trim_groups<const N: usize>(bytes: &[u8], byte: u8) -> &[u8]
    requires { (0 < N) × (N ≤ 32) }
    ensures { (n : ℕ) × (bytes.now ≡ result.now ++ replicate (N * n) byte) }
{
    let mut used = bytes;
    while let Some((front, last)) = used.split_last_chunk::<N>()
        && are_all(last, byte)
    {
        used = front;
    }
    used
}

/// Returns the value of a hexadecimal digit in upper or lower case, or 255 for any other byte.
fn digit_value(digit: u8) -> u8
    ensures { hex_digit_value digit ≡ value_below_16 result }
{
    let decimal = digit.wrapping_sub(b'0');
    // Setting bit 5 converts an uppercase letter to lower case.
    let letter = (digit | 0x20).wrapping_sub(b'a');
    if decimal < 10 {
        decimal
    } else if letter < 6 {
        letter + 10
    } else {
        255
    }
}

/// Returns the value of each digit, or 255 for a byte that is not a digit.
fn digit_values(digits: &[u8; 32]) -> [u8; 32]
    ensures { AreValues digits.now result }
{
    let mut values = [0; 32];
    'digits: for i in 0..32 {
        values[i] = digit_value(digits[i]);
    }
    values
}

/// Decodes 32 hexadecimal digits, in upper or lower case. Inlined, because storing the result in memory takes as long
/// as decoding the digits.
#[inline(always)]
fn decode_group(digits: &[u8; 32]) -> Option<[u8; 16]>
    ensures { result ≡ decoded_bytes 16 digits.now }
{
    let values = digit_values(digits);
    let mut bytes = [0; 16];
    let mut are_digits = true;
    'pairs: for i in 0..16 {
        let high = values[2 * i];
        let low = values[2 * i + 1];
        are_digits &= (high < 16) & (low < 16);
        bytes[i] = high.wrapping_mul(16).wrapping_add(low);
    }
    if are_digits { Some(bytes) } else { None }
}

/// Decodes fewer than 32 hexadecimal digits. If the result is `None`, the bytes are unspecified.
fn decode_rest(digits: &[u8], bytes: &mut [u8]) -> Option<()>
    requires pairs { length digits.now ≡ 2 * length bytes.old }
    requires few { length digits.now < 32 }
    ensures { MatchOption result (decoded_bytes (length bytes.old) digits.now ≡ None)
        (λ _. decoded_bytes (length bytes.old) digits.now ≡ Some bytes.new) }
{
    let mut padded = [b'0'; 32];
    padded[..digits.len()].copy_from_slice(digits);
    let group = decode_group(&padded)?;
    bytes.copy_from_slice(&group[..digits.len() / 2]);
    Some(())
}

/// Decodes hexadecimal digits, in upper or lower case, two for each byte. If the result is `None`, the bytes are
/// unspecified.
pub fn decode_digits(digits: &[u8], bytes: &mut [u8]) -> Option<()>
    ensures { MatchOption result (decoded_bytes (length bytes.old) digits.now ≡ None)
        (λ _. decoded_bytes (length bytes.old) digits.now ≡ Some bytes.new) }
{
    if digits.len() != 2 * bytes.len() {
        return None;
    }
    let mut done = 0;
    while let Some(group) = digits[2 * done..].first_chunk::<32>() {
        bytes[done..done + 16].copy_from_slice(&decode_group(group)?);
        done += 16;
    }
    if done == bytes.len() {
        return Some(());
    }
    decode_rest(&digits[2 * done..], &mut bytes[done..])
}

/// Decodes `2 * N` hexadecimal digits, in upper or lower case.
pub fn decode_bytes<const N: usize>(digits: &[u8]) -> Option<[u8; N]>
    ensures { result ≡ decoded_bytes N digits.now }
{
    let mut bytes = [0; N];
    if digits.len() != 2 * N {
        return None;
    }
    let used = trim_groups::<32>(digits, b'0');
    decode_digits(used, &mut bytes[..used.len() / 2])?;
    Some(bytes)
}

/// Returns the lowercase digit of a value below 16.
fn lower_digit(value: u8) -> u8
    requires { value < 16 }
    ensures { result ≡ slice_index lower_digits value }
{
    if value < 10 {
        b'0' + value
    } else {
        b'a' - 10 + value
    }
}

/// Encodes bytes as lowercase hexadecimal digits, two for each byte.
pub fn encode_digits(bytes: &[u8], digits: &mut [u8])
    requires { length digits.old ≡ 2 * length bytes.now }
    ensures { digits.new ≡ encode_lower bytes.now }
{
    'bytes: for i in 0..bytes.len() {
        digits[2 * i] = lower_digit(bytes[i] >> 4);
        digits[2 * i + 1] = lower_digit(bytes[i] & 15);
    }
}

/// Encodes bytes as lowercase hexadecimal digits, two for each byte. The buffer `digits` must be filled with `0`
/// digits.
#[tactic(auto, using(crate::proofs::Decoding::written))]
pub fn write_digits(bytes: &[u8], digits: &mut [u8])
    requires { digits.old ≡ replicate (2 * length bytes.now) 48 }
    ensures { digits.new ≡ encode_lower bytes.now }
{
    let used = trim_groups::<16>(bytes, 0);
    encode_digits(used, &mut digits[..2 * used.len()]);
}
