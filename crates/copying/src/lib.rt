#![tactic(auto)]
// Bytes copied to the start of a place.
ghost use Rattle.copying.specs.Copying.{Copies};

// Copies all bytes of the source to the start of the target, and answers how many they are. What lies after them stays.
// Where there is no room for all, nothing is copied, and it answers 0.
pub fn copy(source: &[u8], target: &mut [u8]) -> usize
    ensures { Copies source.now target.old result target.new }
{
    if source.len() > target.len() {
        return 0;
    }
    // Not copy_from_slice: that one calls memmove, and this loop becomes memcpy.
    for (i, &byte) in source.iter().enumerate() {
        target[i] = byte;
    }
    source.len()
}
