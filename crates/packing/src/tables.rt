// How many numbers there are in contents of a length.
ghost use Rattle.std.specs.Prelude.{◌≡◌, ◌^◌, ◌<◌, true};
ghost use Rattle.packing.specs.Ranges.{HasLength, width_of, start_of};
ghost use Rattle.packing.specs.Slots.{Slots, slots_of, row_counts};

use crate::Range;

// The longest contents of any range. Crate piles says the same of all lists; this one rests on no pile.
const LONGEST: usize = 130;

// How many numbers are present in contents of 1 .. 130 octets, for each range.
const COUNTS_1024: [u16; LONGEST] = [
    0, 1, 1, 2, 3, 4, 5, 6, 7, 9, 10, 11, 12, 13, 14, 16, 17, 18, 20, 21, 22, 24, 25, 26, 28, 29,
    30, 32, 33, 35, 37, 38, 40, 41, 43, 45, 46, 48, 49, 51, 53, 54, 56, 57, 59, 61, 62, 64, 66, 68,
    70, 72, 74, 76, 78, 80, 82, 84, 86, 88, 90, 92, 94, 96, 98, 100, 102, 104, 106, 108, 110, 112,
    114, 116, 118, 120, 122, 124, 126, 129, 131, 134, 137, 139, 142, 145, 147, 150, 153, 155, 158,
    161, 163, 166, 169, 171, 174, 177, 179, 182, 185, 187, 190, 193, 195, 198, 201, 203, 206, 209,
    211, 214, 217, 219, 222, 225, 227, 230, 233, 235, 238, 241, 243, 246, 249, 251, 254, 258, 262,
    266,
];

const COUNTS_512: [u16; LONGEST] = [
    0, 0, 0, 1, 2, 3, 5, 6, 7, 8, 10, 11, 12, 14, 15, 17, 18, 20, 21, 23, 25, 26, 28, 29, 31, 33,
    35, 37, 39, 41, 43, 45, 47, 49, 51, 53, 55, 57, 59, 61, 63, 66, 69, 71, 74, 77, 79, 82, 85, 87,
    90, 93, 95, 98, 101, 103, 106, 109, 111, 114, 117, 119, 122, 125, 128, 132, 136, 140, 144, 148,
    152, 156, 160, 164, 168, 172, 176, 180, 184, 188, 192, 196, 200, 204, 208, 212, 216, 220, 224,
    228, 232, 236, 240, 244, 248, 252, 257, 265, 273, 281, 289, 297, 305, 313, 321, 329, 337, 345,
    353, 361, 369, 377, 385, 393, 401, 409, 417, 425, 433, 441, 449, 457, 465, 473, 481, 489, 497,
    505, 511, 511,
];

const COUNTS_256: [u16; LONGEST] = [
    0, 0, 0, 2, 3, 4, 5, 7, 8, 10, 12, 13, 15, 17, 19, 21, 23, 25, 27, 29, 31, 34, 36, 39, 42, 44,
    47, 50, 52, 55, 58, 60, 63, 67, 71, 75, 79, 83, 87, 91, 95, 99, 103, 107, 111, 115, 119, 123,
    128, 136, 144, 152, 160, 168, 176, 184, 192, 200, 208, 216, 224, 232, 240, 248, 255, 255, 255,
    255, 255, 255, 255, 255, 255, 255, 255, 255, 255, 255, 255, 255, 255, 255, 255, 255, 255, 255,
    255, 255, 255, 255, 255, 255, 255, 255, 255, 255, 255, 255, 255, 255, 255, 255, 255, 255, 255,
    255, 255, 255, 255, 255, 255, 255, 255, 255, 255, 255, 255, 255, 255, 255, 255, 255, 255, 255,
    255, 255, 255, 255, 255, 255,
];

const COUNTS_128: [u16; LONGEST] = [
    0, 0, 1, 2, 3, 5, 7, 9, 11, 13, 15, 17, 20, 23, 25, 28, 31, 35, 39, 43, 47, 51, 55, 59, 63, 71,
    79, 87, 95, 103, 111, 119, 127, 127, 127, 127, 127, 127, 127, 127, 127, 127, 127, 127, 127,
    127, 127, 127, 127, 127, 127, 127, 127, 127, 127, 127, 127, 127, 127, 127, 127, 127, 127, 127,
    127, 127, 127, 127, 127, 127, 127, 127, 127, 127, 127, 127, 127, 127, 127, 127, 127, 127, 127,
    127, 127, 127, 127, 127, 127, 127, 127, 127, 127, 127, 127, 127, 127, 127, 127, 127, 127, 127,
    127, 127, 127, 127, 127, 127, 127, 127, 127, 127, 127, 127, 127, 127, 127, 127, 127, 127, 127,
    127, 127, 127, 127, 127, 127, 127, 127, 127,
];

// The counts of a range: each is right.
fn counts(range: Range) -> &'static [u16; LONGEST]
    ensures { row_counts range result.now ≡ true }
{
    match range {
        Range::R1024 => &COUNTS_1024,
        Range::R512 => &COUNTS_512,
        Range::R256 => &COUNTS_256,
        Range::R128 => &COUNTS_128,
    }
}

// How many numbers are present in contents of a length: as many as fit whole, and 0 if there are no such contents, as
// the standard has lengths without numbers.
pub fn slots(range: Range, len: usize) -> usize
    ensures value { result ≡ slots_of range len }
    ensures greatest { HasLength range len → Slots (width_of range) (start_of range) len result }
    ensures few { result < 2 ^ width_of range }
    ensures small { result < 512 }
{
    if len == 0 {
        return 0;
    }
    match counts(range).get(len - 1) {
        Some(count) => *count as usize,
        None => 0,
    }
}
