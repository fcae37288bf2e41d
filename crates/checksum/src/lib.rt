#![tactic(auto)]
// The checksum of a record's bytes.
ghost use Rattle.checksum.specs.Checksum.{Checksum};

// The sum of the bytes, left to wrap at 256, then negated.
pub fn checksum(bytes: &[u8]) -> u8
    ensures { Checksum bytes.now result }
{
    let mut sum: u8 = 0;
    for byte in bytes {
        sum = sum.wrapping_add(*byte);
    }
    sum.wrapping_neg()
}
