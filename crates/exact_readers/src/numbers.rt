ghost use Rattle.std.specs.Prelude.{◌≡◌};
ghost use Rattle.std.specs.Int.{w16, w32, w64};
ghost use Rattle.std.specs.Option.{option_map};
ghost use Rattle.exact_readers.specs.Numbers.{number};

/// The number in the first two bytes, the least byte first, and what stands behind them; nothing where there are fewer.
pub fn read_u16(bytes: &[u8]) -> Option<(u16, &[u8])>
    ensures { option_map (λ parts. (parts.0, parts.1.now)) result ≡ (number w16).step bytes.now }
{
    match bytes.split_first_chunk::<2>() {
        Some((front, rest)) => Some((u16::from_le_bytes(*front), rest)),
        None => None,
    }
}

/// The number in the first four bytes, the least byte first, and what stands behind them; nothing where there are
/// fewer.
pub fn read_u32(bytes: &[u8]) -> Option<(u32, &[u8])>
    ensures { option_map (λ parts. (parts.0, parts.1.now)) result ≡ (number w32).step bytes.now }
{
    match bytes.split_first_chunk::<4>() {
        Some((front, rest)) => Some((u32::from_le_bytes(*front), rest)),
        None => None,
    }
}

/// The number in the first eight bytes, the least byte first, and what stands behind them; nothing where there are
/// fewer.
pub fn read_u64(bytes: &[u8]) -> Option<(u64, &[u8])>
    ensures { option_map (λ parts. (parts.0, parts.1.now)) result ≡ (number w64).step bytes.now }
{
    match bytes.split_first_chunk::<8>() {
        Some((front, rest)) => Some((u64::from_le_bytes(*front), rest)),
        None => None,
    }
}
