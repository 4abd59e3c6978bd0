//! The addresses of frames.

ghost use Rattle.std.specs.Prelude.{◌≡◌};
ghost use Rattle.traffic_maker.specs.Address.{made_address};

/// The address with this first byte that a number gives.
pub(crate) fn address(first: u8, number: u32) -> [u8; 4]
    ensures { result ≡ made_address first number }
{
    let bytes = number.to_be_bytes();
    if bytes[0] < 64 {
        return [first, 0, 0, 1];
    }
    if bytes[0] < 128 {
        return [first, 0, bytes[1] % 4, bytes[2]];
    }
    [first, bytes[1], bytes[2], bytes[3]]
}
