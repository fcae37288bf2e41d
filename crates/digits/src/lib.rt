#![tactic(auto)]
// Hexadecimal digits, two to a byte: decoded from any part of a line, and spelt into an output. Readers and writers stand on it.
ghost use Rattle.std.specs.Prelude.{◌≡◌, ◌+◌, ◌*◌, ◌/◌, ◌%◌, ◌<◌, ◌≤◌, length};
ghost use Rattle.digits.specs.Digits.{DigitValue};
ghost use Rattle.digits.specs.Reading.{FirstOther, NamePlace, Decodable, Decoded, pairs};
ghost use Rattle.digits.specs.Spelling.{CapitalDigit, Put, Spelt, Spell};

// How many decimal digits there are.
const DECIMALS: u8 = 10;

// Where the six letters begin among the differences from the letter after them.
const LETTERS: u8 = 250;

// The value of a hexadecimal digit, 0 to 15 in either letter case; 16 for any other byte. Differences wrap: what stands before `0` is beyond 9,
// and the six letters before `G` or `g` are 250 to 255, whose lower four bits are the value.
// A match on the three ranges would be plainer, but decoding takes twice the time with the branches that become of it.
// The 16 makes it no Option: the theorem ValuesOfDigits names it.
#[tactic(auto, unfolding(crate::specs::Digits::digit, crate::specs::Digits::between))]
pub fn digit_value(c: u8) -> u8
    ensures { DigitValue c result }
{
    let decimal = c.wrapping_sub(b'0');
    if decimal < DECIMALS {
        return decimal;
    }
    let capital = c.wrapping_sub(b'G');
    if capital >= LETTERS {
        return capital % 16;
    }
    let small = c.wrapping_sub(b'g');
    if small >= LETTERS {
        return small % 16;
    }
    16
}

// How many digits stand before the first byte that is not a digit: the length, where each is one.
pub fn first_other(ds: &[u8]) -> usize
    ensures { FirstOther ds.now result }
{
    ds.iter()
        .position(|c| digit_value(*c) >= 16)
        .unwrap_or(ds.len())
}

// A place as a refusal names it: 65,535 for any place beyond that.
pub fn name_place(place: usize) -> u16
    ensures { NamePlace place result }
{
    u16::try_from(place).unwrap_or(u16::MAX)
}

// Whether each character that was looked at is a digit, and the sum of the bytes before the first that is not.
// It is no Option of the sum: `Decoded` promises the sum where a character is not a digit too.
#[derive(Clone, Copy)]
pub struct Scan {
    pub whole: bool,
    pub sum: u8,
}

// Decodes all pairs. Without the exits the compiler spreads the loop over vectors, and the code grows threefold.
fn decode_pairs(ds: &[u8], buf: &mut [u8]) -> Scan
    requires { Decodable ds.now buf.old }
    ensures { Decoded ds.now buf.old result.whole result.sum buf.new }
{
    let mut sum: u8 = 0;
    for i in 0..ds.len() / 2 {
        let high = digit_value(ds[2 * i]);
        if high >= 16 {
            return Scan { whole: false, sum };
        }
        let low = digit_value(ds[2 * i + 1]);
        if low >= 16 {
            return Scan { whole: false, sum };
        }
        let byte = high * 16 + low;
        sum = sum.wrapping_add(byte);
        buf[i] = byte;
    }
    Scan { whole: true, sum }
}

// Decodes pairs of digits into the buffer's first places and sums the bytes, up to a byte that is not a digit or until the buffer is full.
pub fn decode(ds: &[u8], buf: &mut [u8]) -> Scan
    ensures { Decoded (pairs ds.now (length buf.old)) buf.old result.whole result.sum buf.new }
{
    let n = (ds.len() / 2).min(buf.len());
    decode_pairs(&ds[..2 * n], buf)
}

// The capital digit of a byte's low half.
#[tactic(auto, unfolding(crate::specs::Spelling::capital_digit))]
pub fn capital_digit(byte: u8) -> u8
    ensures { CapitalDigit byte result }
{
    let value = byte % 16;
    if value < 10 {
        b'0' + value
    } else {
        b'A' - 10 + value
    }
}

// A byte's two digits at a place.
fn put(byte: u8, out: &mut [u8], at: usize)
    requires { at + 2 ≤ length out.old }
    ensures { Put byte out.old at out.new }
{
    out[at] = capital_digit(byte / 16);
    out[at + 1] = capital_digit(byte);
}

// The digits of bytes for which there is room.
fn spell_all(bytes: &[u8], sum: u8, out: &mut [u8]) -> u8
    requires { 2 * length bytes.now ≤ length out.old }
    ensures { Spelt bytes.now sum out.old result out.new }
{
    let mut total = sum;
    for (i, &byte) in bytes.iter().enumerate() {
        put(byte, out, 2 * i);
        total = total.wrapping_add(byte);
    }
    total
}

// The digits of bytes at the output's first places, and the sum of a sum before and of the bytes. Where there is no room, nothing is written and added.
pub fn spell(bytes: &[u8], sum: u8, out: &mut [u8]) -> u8
    ensures { Spell bytes.now sum out.old result out.new }
{
    if bytes.len() > out.len() / 2 {
        return sum;
    }
    spell_all(bytes, sum, out)
}
