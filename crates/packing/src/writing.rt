// Writing: numbers into octets.
ghost use Rattle.std.specs.Prelude.{◌≡◌, ℕ, ◌+◌, ◌*◌, ◌%◌, ◌-◌, ◌^◌, ◌<◌, ◌≤◌, ◌||◌, ◌++◌, drop, length, slice_index};
ghost use Rattle.packing.specs.Ranges.{start_of};
ghost use Rattle.packing.specs.Fields.{Octets, bit_at};
ghost use Rattle.packing.specs.Writing.{Packable, head_of, packed, stands, tail_of};

use crate::Range;

// Puts the bits of an octet to 1 that are 1 in `bits`; past the end there is none.
fn or_octet(out: &mut [u8], k: usize, bits: u8)
    requires { Octets out.old }
    ensures bits { (x : ℕ) → x < 8 * length out.old → bit_at out.new x ≡ (bit_at out.old x || stands (8 * k) 8 bits x) }
    ensures octets { Octets out.new }
{
    // by an index: of the octets behind `get_mut` a proof knows no more than how many they are
    if k < out.len() {
        out[k] |= bits;
    }
}

// Puts the bits of a number, from a position on, to 1 where they are 1: they lie within three octets. No `Width`, since a head is wider.
fn put(out: &mut [u8], at: usize, wide: u32, number: u32)
    requires within { at % 8 + wide ≤ 24 }
    requires narrow { number < 2 ^ wide }
    ensures bits { (x : ℕ) → x < 8 * length out.old → bit_at out.new x ≡ (bit_at out.old x || stands at wide number x) }
    ensures octets { Octets out.new }
{
    let k = at / 8;
    let window = (number << (24 - wide)) >> (at % 8);
    or_octet(out, k, (window >> 16) as u8);
    or_octet(out, k + 1, ((window >> 8) & 255) as u8);
    or_octet(out, k + 2, (window & 255) as u8);
}

// Writes octets, which are 0: `head` before the first position, and the numbers W(1), W(2), .. from there on.
fn lay(range: Range, head: u32, numbers: &[u16], out: &mut [u8])
    requires packable { Packable range head (λ i. slice_index numbers.now (i - 1)) (length numbers.now) (length out.old) }
    requires zeros { (k : ℕ) → k < length out.old → slice_index out.old k ≡ 0 }
    ensures { out.new ≡ packed range head (λ i. slice_index numbers.now (i - 1)) (length numbers.now) (length out.old) }
{
    let mut at = range.start();
    put(out, 0, at as u32, head);
    for (k, number) in numbers.iter().enumerate() {
        let wide = range.width_at(k + 1).bits;
        put(out, at, wide, *number as u32);
        at += wide as usize;
    }
}

// Writes len octets: `head` before the first position, W(1) .. W(n), which stand at the places 1 .. n of a table, and zeros behind them.
// The octets and the table are the caller's, with a length beside each, since the library has no memory of its own.
pub fn pack(
    range: Range,
    head: u32,
    numbers: &[u16; 512],
    n: usize,
    len: usize,
    out: &mut [u8; 130],
)
    requires { Packable range head (λ i. slice_index numbers.now i) n len }
    ensures { out.new ≡ packed range head (λ i. slice_index numbers.now i) n len ++ drop len out.old }
{
    let octets = &mut out[..len];
    octets.fill(0);
    lay(range, head, &numbers[1..n + 1], octets);
}

// What stands before W(1): the mark of the range, and behind it the origin, or 0 or 1 for F0 in range 1024. `tail` is these bits as they stand
// in the octets, whatever they mean.
pub fn head(range: Range, tail: u16) -> u32
    ensures value { result ≡ head_of range tail }
    ensures bound { tail < 2 ^ tail_of range → result < 2 ^ start_of range }
{
    match range {
        Range::R1024 => 0x20 + tail as u32,
        Range::R512 => 0x11000 + tail as u32,
        Range::R256 => 0x11400 + tail as u32,
        Range::R128 => 0x11800 + tail as u32,
    }
}
