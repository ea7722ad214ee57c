// Reading: numbers out of octets.
ghost use Rattle.std.specs.Prelude.{◌≡◌, suc, ◌+◌, ◌*◌, ◌/◌, ◌^◌, ◌<◌, ◌≤◌, ◌==◌, if◌then◌else◌, slice_index};
ghost use Rattle.std.specs.Iterator.{YieldsFirst, item_count};
ghost use Rattle.std.specs.List.{list_all};
ghost use Rattle.packing.specs.Fields.{field};
ghost use Rattle.packing.specs.Reading.{Unpacked, filled, leading, number_in, numbers_from, slots_in, unpacked};
ghost use Rattle.packing.specs.Trips.{Again, Behind, Heads, Levels, Only, Reads, Trip};

use crate::{Range, Width, slots};
use faults::FormatFault;
use std::marker::Model;

// How many bits a window shows.
const WINDOW: usize = 64;

// An octet, or 0 past the end.
fn octet(octets: &[u8], k: usize) -> u8
    ensures { result ≡ slice_index octets.now k }
{
    octets.get(k).copied().unwrap_or(0)
}

// The eight octets from that of a position on, as one number; past the end they count 0.
fn word(contents: &[u8], at: usize) -> u64
    ensures { result ≡ field contents.now (8 * (at / 8)) 64 }
{
    let k = at / 8;
    let Some(octets) = contents.get(k..k + 8) else {
        return last_word(contents, at);
    };
    let mut eight = [0; 8];
    eight.copy_from_slice(octets);
    u64::from_be_bytes(eight)
}

// The same, octet by octet: near the end.
fn last_word(contents: &[u8], at: usize) -> u64
    ensures { result ≡ field contents.now (8 * (at / 8)) 64 }
{
    let k = at / 8;
    // an array that they are copied to is slower: it costs a quarter of a short reading
    u64::from_be_bytes([
        octet(contents, k),
        octet(contents, k + 1),
        octet(contents, k + 2),
        octet(contents, k + 3),
        octet(contents, k + 4),
        octet(contents, k + 5),
        octet(contents, k + 6),
        octet(contents, k + 7),
    ])
}

// The 64 bits of some octets from a position on.
#[derive(Clone, Copy)]
struct Window<'a> {
    contents: &'a [u8],
    base: usize,
    bits: u64,
    ghost shows: { bits ≡ field contents.now base 64 },
}

impl<'a> Window<'a> {
    // The window whose first octet has a position.
    fn over(contents: &'a [u8], at: usize) -> Window<'a>
        ensures same { result.contents.now ≡ contents.now }
        ensures from { result.base ≤ at }
        ensures near { at < result.base + 8 }
    {
        Window {
            contents,
            base: 8 * (at / 8),
            bits: word(contents, at),
        }
    }

    // A window with the bits from a position up to another.
    fn covering(self, at: usize, end: usize) -> Window<'a>
        requires from { self.base ≤ at }
        requires near { at < 2 ^ 32 }
        requires reach { end ≤ at + 10 }
        ensures same { result.contents.now ≡ self.entry.contents.now }
        ensures from { result.base ≤ at }
        ensures enough { end ≤ result.base + 64 }
    {
        if end <= self.base + WINDOW {
            return self;
        }
        Window::over(self.contents, at)
    }

    // The number of a width from a position on.
    fn number(self, at: usize, wide: Width) -> u16
        requires from { self.base ≤ at }
        requires within { at + wide.bits ≤ self.base + 64 }
        ensures { result ≡ field self.entry.contents.now at wide.bits }
    {
        ((self.bits << (at - self.base)) >> (64 - wide.bits)) as u16
    }
}

// The number of a width that stands from a position on.
fn field_at(contents: &[u8], at: usize, wide: Width) -> u16
    ensures { result ≡ field contents.now at wide.bits }
{
    Window::over(contents, at).number(at, wide)
}

// The numbers of some octets from W(i) on, of which so many are left: contracts see it as the list of these.
#[derive(Drop)]
struct Numbers<'a> {
    range: Range,
    i: usize,
    left: usize,
    at: usize,
    window: Window<'a>,
}

impl<'a> Model for Numbers<'a> {
    ghost use Rattle.std.specs.Prelude.{ℕ, List};
    ghost use Rattle.packing.specs.Reading.{Next, numbers_from};

    ghost Value = { List ℕ };

    ghost view = { λ s. numbers_from s.range s.window.contents.now s.i s.left };

    ghost invariant = { λ s. Next s.range s.window.contents.now s.i s.left s.at s.window.base };
}

impl<'a> Numbers<'a> {
    fn of(range: Range, contents: &'a [u8]) -> Numbers<'a>
        ensures { result ≡ numbers_from range contents.now 1 (slots_in range contents.now) }
    {
        Numbers {
            range,
            i: 1,
            left: slots(range, contents.len()),
            at: range.start(),
            window: Window::over(contents, 0),
        }
    }
}

impl<'a> Iterator for Numbers<'a> {
    type Item = u16;

    ghost next_gives = { YieldsFirst (λ s. s) };

    ghost remaining = { item_count (λ s. s) };

    // inline: by a call for each number a reading costs a quarter more
    #[inline(always)]
    fn next(&mut self) -> Option<u16> {
        if self.left == 0 {
            return None;
        }
        let wide = self.range.width_at(self.i);
        let end = self.at + wide.bits as usize;
        let window = self.window.covering(self.at, end);
        let number = window.number(self.at, wide);
        // all at once, since the invariant ties the fields
        *self = Numbers {
            range: self.range,
            i: self.i + 1,
            left: self.left - 1,
            at: end,
            window,
        };
        Some(number)
    }
}

fn all_null(mut rest: Numbers) -> bool
    ensures { result ≡ list_all (λ w. w == 0) rest.entry }
{
    rest.all(|number| number == 0)
}

// The answer where n numbers stand before the first null: they are read, unless a later one is not null.
fn behind_null(n: u16, rest: Numbers) -> Result<usize, FormatFault>
    requires { n < 512 }
    ensures { result ≡ (if list_all (λ w. w == 0) rest.entry then Ok n else Err (FormatFault.NumberAfterNull (suc n))) }
{
    if all_null(rest) {
        return Ok(n as usize);
    }
    Err(FormatFault::NumberAfterNull(n + 1))
}

// Reads W(1), W(2), .. to the places 1, 2, .. of a table, up to the first null, and says how many there are. The other places stay. The
// table is the caller's, since the library has no memory of its own.
pub fn unpack(range: Range, contents: &[u8], numbers: &mut [u16; 512]) -> Result<usize, FormatFault>
    ensures value { result ≡ unpacked range contents.now }
    ensures table { numbers.new ≡ filled (number_in range contents.now) (leading range contents.now) numbers.old }
    ensures meaning { Unpacked range contents.now numbers.new result }
    // what `pack` writes is read again, with its head and the widths that are meant, and only octets that are written so have the numbers
    // in that way; the octets before the numbers do not matter
    ensures trip { Trip }
    ensures levels { Levels }
    ensures only { Only }
    ensures heads { Heads }
    ensures reads { Reads }
    ensures again { Again }
    ensures behind { Behind }
{
    let mut rest = Numbers::of(range, contents);
    // counted by hand: n is the answer, and the rest is handed on at the first null
    let mut n = 0;
    while let Some(number) = rest.next() {
        if number == 0 {
            return behind_null(n, rest);
        }
        n += 1;
        numbers[n as usize] = number;
    }
    Ok(n as usize)
}

// The ten bits at the positions 7 .. 16: the origin of the ranges 512, 256 and 128.
pub fn origin_of(contents: &[u8]) -> u16
    ensures { result ≡ field contents.now 7 10 }
{
    field_at(contents, 7, Width { bits: 10 })
}

// The bit at position 5: F0 of range 1024, whether channel 0 is in the list.
pub fn flag_of(contents: &[u8]) -> bool
    ensures { result ≡ (field contents.now 5 1 == 1) }
{
    field_at(contents, 5, Width { bits: 1 }) == 1
}
