#![tactic(auto)]
// The six records of Intel's hexadecimal format, their types, the numbers of refusals, and the numbers and characters of a line.
ghost use Rattle.record.specs.Record.{RecordType};

#[derive(Clone, Copy)]
pub enum Record {
    // A 16-bit offset, and a payload of `len` bytes that lies in a lent pool from `at` on.
    Data { offset: u16, at: usize, len: usize },
    // The end of the object.
    EndOfFile,
    // Bits 4 to 19 of the segment base address.
    ExtendedSegmentAddress(u16),
    // The registers CS and IP.
    StartSegmentAddress { cs: u16, ip: u16 },
    // Bits 16 to 31 of the linear base address.
    ExtendedLinearAddress(u16),
    // The register EIP.
    StartLinearAddress(u32),
}

// The number that says a record's type in its line. These are numbers and not an enum: the crate ihex and C have them so.
pub mod types {
    pub const DATA: u8 = 0x00;

    pub const END_OF_FILE: u8 = 0x01;

    pub const EXTENDED_SEGMENT_ADDRESS: u8 = 0x02;

    pub const START_SEGMENT_ADDRESS: u8 = 0x03;

    pub const EXTENDED_LINEAR_ADDRESS: u8 = 0x04;

    pub const START_LINEAR_ADDRESS: u8 = 0x05;
}

// The number of each refusal, by which C and the documents know it.
pub mod refusals {
    pub const MISSING_START_CODE: u8 = 1;

    pub const CONTAINS_INVALID_CHARACTERS: u8 = 2;

    pub const RECORD_TOO_SHORT: u8 = 3;

    pub const RECORD_TOO_LONG: u8 = 4;

    pub const RECORD_NOT_EVEN_LENGTH: u8 = 5;

    pub const CHECKSUM_MISMATCH: u8 = 6;

    pub const PAYLOAD_LENGTH_MISMATCH: u8 = 7;

    pub const UNSUPPORTED_RECORD_TYPE: u8 = 8;

    pub const INVALID_LENGTH_FOR_TYPE: u8 = 9;

    pub const POOL_FULL: u8 = 10;

    pub const PAYLOAD_OUTSIDE_POOL: u8 = 11;

    pub const DATA_EXCEEDS_MAXIMUM_LENGTH: u8 = 12;

    pub const MISSING_END_OF_FILE_RECORD: u8 = 13;

    pub const MULTIPLE_END_OF_FILE_RECORDS: u8 = 14;

    pub const OUTPUT_FULL: u8 = 15;

    pub const BAD_WINDOW: u8 = 16;

    pub const OUTSIDE_WINDOW: u8 = 17;

    pub const CARRY_TOO_SMALL: u8 = 18;

    pub const BAD_MARK: u8 = 19;

    pub const COUNT_MISMATCH: u8 = 20;

    pub const START_CONFLICT: u8 = 21;

    pub const LIST_FULL: u8 = 22;

    pub const BAD_TABLE: u8 = 23;

    pub const BAD_PLACE: u8 = 24;

    pub const ADDRESS_TOO_WIDE: u8 = 25;
}

// The characters that a text has a meaning for, beside digits.
pub mod chars {
    pub const COLON: u8 = b':';

    pub const LF: u8 = b'\n';

    pub const CR: u8 = b'\r';
}

// How many payload bytes a record of a type has.
pub mod payload_sizes {
    pub const MOST_DATA: usize = 255;

    pub const END_OF_FILE: usize = 0;

    pub const EXTENDED_SEGMENT_ADDRESS: usize = 2;

    pub const START_SEGMENT_ADDRESS: usize = 4;

    pub const EXTENDED_LINEAR_ADDRESS: usize = 2;

    pub const START_LINEAR_ADDRESS: usize = 4;
}

// How many bytes a line spells.
pub mod byte_counts {
    // Length, address, type and checksum.
    pub const AROUND_PAYLOAD: usize = 5;

    pub const MOST: usize = 260;
}

// How many characters a line has.
pub mod char_counts {
    // The digits of the shortest line, and of the longest.
    pub const FEWEST_DIGITS: usize = 10;

    pub const MOST_DIGITS: usize = 520;

    // The colon and the digits before the payload.
    pub const BEFORE_PAYLOAD: usize = 9;

    // A line with a payload of no byte, of two and of four.
    pub const NO_PAYLOAD: usize = 11;

    pub const TWO_BYTES: usize = 15;

    pub const FOUR_BYTES: usize = 19;

    // One more than the longest line has: of a longer line no more is kept.
    pub const MOST_KEPT: usize = 522;
}

impl Record {
    // The record's type.
    pub fn record_type(self) -> u8
        ensures { RecordType self result }
    {
        match self {
            Record::Data { .. } => types::DATA,
            Record::EndOfFile => types::END_OF_FILE,
            Record::ExtendedSegmentAddress(_) => types::EXTENDED_SEGMENT_ADDRESS,
            Record::StartSegmentAddress { .. } => types::START_SEGMENT_ADDRESS,
            Record::ExtendedLinearAddress(_) => types::EXTENDED_LINEAR_ADDRESS,
            Record::StartLinearAddress(_) => types::START_LINEAR_ADDRESS,
        }
    }
}
