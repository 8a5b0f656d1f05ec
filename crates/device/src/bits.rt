// Bits of registers.
ghost use Rattle.std.specs.Prelude.{◌≡◌, ◌<◌};
ghost use Rattle.device.specs.Bytes.{bit as bit_of};

// Whether bit `place` of a byte is set, bit 0 the lowest.
pub fn bit(place: u8, byte: u8) -> bool
    requires { place < 8 }
    ensures { result ≡ bit_of place byte }
{
    (byte >> place) % 2 == 1
}
