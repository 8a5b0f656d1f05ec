// Numbers of a stream: four bytes, the highest first.
ghost use Rattle.std.specs.Prelude.{◌≡◌, length};
ghost use Rattle.device.specs.Bytes.{four, value};

use crate::bytes::array;

// The number that four bytes stand for.
#[tactic(auto, using(crate::proofs::FourBytes::values))]
pub fn number(bytes: &[u8]) -> u32
    requires { length bytes.now ≡ 4 }
    ensures { result ≡ value bytes.now }
{
    u32::from_be_bytes(*array(bytes))
}

// Writes a number over four bytes.
pub fn put_number(out: &mut [u8], n: u32)
    requires { length out.old ≡ 4 }
    ensures { out.new ≡ four n }
{
    out.copy_from_slice(&n.to_be_bytes());
}
