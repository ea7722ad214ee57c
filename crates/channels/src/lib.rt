// Sets of channels. A channel (ARFCN) is a number from 0 to 1023; a set holds channels and can hold nothing else: a bit
// for each, in sixteen words of 64.
#![tactic(auto)]

ghost use Rattle.std.specs.Prelude.{◌≡◌, ℕ, ◌+◌, ◌-◌, ◌*◌, ◌%◌, ◌<◌, ◌≤◌, Decides, ◌==◌, true, false, take, drop};
ghost use Rattle.std.specs.Cmp.Rules.{comparing};
ghost use Rattle.std.proofs.Common.{rules};
ghost use Rattle.std.specs.Cmp.Lexicographic.{pointwise};
ghost use Rattle.bits.specs.Bits.{bit};
ghost use Rattle.channels.specs.Sets.{holds, no_channels, all_channels, put, put_eight, eight_from, turned, size_of, next_above, first_outside, within, members_of, Listed, Changed, IsEquality, ViewLaws, MemberLaws};

mod channel;

use bits::{Words, joined};
pub use channel::CHANNELS;
use channel::Channel;
use faults::SetFault;
use std::array;

const WORDS: usize = 16;

#[derive(Clone, Copy, Debug)]
pub struct ChannelSet {
    numbers: Words<WORDS>,
}

// Equal sets are equal values. By hand, since a derive has no clause of its own, and every caller of `==` gets this one.
impl PartialEq for ChannelSet {
    ghost eq = { λ a b. pointwise ◌==◌ a.numbers.words b.numbers.words };

    ghost laws = { Prim.search (comparing, rules) };

    fn eq(&self, other: &ChannelSet) -> bool
        ensures value { result ≡ ⟦<ChannelSet as PartialEq>⟧.eq self.now other.now }
        ensures decides { Decides result (self.now ≡ other.now) }
    {
        self.numbers == other.numbers
    }
}

impl Eq for ChannelSet {
    ghost laws = { Prim.search (comparing, rules) };
}

// What the calls are made of: each works on words, and says by the view what it does.
impl ChannelSet {
    fn or_octet(&mut self, from: u16, octet: u8)
        requires { from + 7 ≤ 1023 }
        ensures { self.new ≡ put_eight self.old from octet }
    {
        let i = (from / 64) as usize;
        let r = from % 64;
        self.numbers.insert_word(i, (octet as u64) << r);
        if r > 56 {
            self.numbers.insert_word(i + 1, octet as u64 >> (64 - r));
        }
    }

    // Word i of the set with each channel moved up by d, round the 1024.
    fn turned_word(&self, i: usize, d: Channel) -> u64
        requires { i < 16 }
        ensures { (b : ℕ) → b < 64 → bit result b ≡ holds self.now ((64 * i + b + 1024 - d.number) % 1024) }
    {
        let q = (d.number / 64) as usize;
        let high = self.numbers.word((i + 16 - q) % 16);
        let low = self.numbers.word((i + 15 - q) % 16);
        joined(high, low, d.number % 64)
    }

    fn turned(&self, d: Channel) -> ChannelSet
        ensures { result ≡ turned self.now d.number }
    {
        let word = move |i: usize|
            requires { i < 16 }
            ensures { (b : ℕ) → b < 64 → bit result b ≡ holds self.entry.now ((64 * i + b + 1024 - d.number) % 1024) }
        { self.turned_word(i, d) };
        ChannelSet {
            numbers: Words::from(array::from_fn(word)),
        }
    }

    // Writes the channels of word i behind the first n of `out`.
    fn list_word(&self, i: usize, n: usize, out: &mut [u16; 1024]) -> usize
        requires { (i < 16) × (Listed self.now (64 * i) n out.old) }
        ensures listed { Listed self.now (64 * (i + 1)) result out.new }
        ensures rest { drop result out.new ≡ drop result out.old }
    {
        let mut n = n;
        let mut w = self.numbers.word(i);
        // each turn takes away the lowest bit: an iterator of them would be this loop, and its own model besides
        while w != 0 {
            out[n] = 64 * i as u16 + w.trailing_zeros() as u16;
            n += 1;
            w &= w - 1;
        }
        n
    }
}

impl ChannelSet {
    // A set without channels. The laws of sets stand here, where every set begins.
    pub fn new() -> ChannelSet
        ensures empty { result ≡ no_channels }
        ensures view { ViewLaws }
        ensures members { MemberLaws }
        ensures equality { IsEquality ⟦<ChannelSet as PartialEq>⟧.eq }
    {
        ChannelSet {
            numbers: Words::none(),
        }
    }

    // All 1024 channels.
    pub fn full() -> ChannelSet
        ensures { result ≡ all_channels }
    {
        ChannelSet {
            numbers: Words::all(),
        }
    }

    pub fn clear(&mut self)
        ensures { self.new ≡ no_channels }
    {
        *self = ChannelSet::new();
    }

    // Whether it holds a channel; it holds no number over 1023.
    #[tactic(auto, unfolding(crate::specs::Sets::holds))]
    pub fn holds(&self, c: u16) -> bool
        ensures { result ≡ holds self.now c }
    {
        self.numbers.has(c)
    }

    pub fn add(&mut self, c: u16) -> Result<(), SetFault>
        ensures { Changed c result self.old (put self.old c true) self.new }
    {
        let channel = Channel::try_from(c)?;
        self.numbers.insert(channel.number);
        Ok(())
    }

    pub fn remove(&mut self, c: u16) -> Result<(), SetFault>
        ensures { Changed c result self.old (put self.old c false) self.new }
    {
        let channel = Channel::try_from(c)?;
        self.numbers.remove(channel.number);
        Ok(())
    }

    // Adds the channels from + k for which bit k of the octet is set, the lowest being bit 0. All eight have to be channels.
    pub fn add_eight(&mut self, from: u16, octet: u8) -> Result<(), SetFault>
        ensures { Changed (from + 7) result self.old (put_eight self.old from octet) self.new }
    {
        Channel::try_from(from.saturating_add(7))?;
        self.or_octet(from, octet);
        Ok(())
    }

    // The eight channels from `from` on as the bits of an octet, the lowest in the lowest bit.
    pub fn eight_from(&self, from: u16) -> u8
        ensures { result ≡ eight_from self.now from }
    {
        (self.numbers.window(from) % 256) as u8
    }

    // Each channel moved up by d, round the 1024.
    pub fn shift(&mut self, d: u16) -> Result<(), SetFault>
        ensures { Changed d result self.old (turned self.old d) self.new }
    {
        let up = Channel::try_from(d)?;
        *self = self.turned(up);
        Ok(())
    }

    #[tactic(auto, unfolding(crate::specs::Sets::holds))]
    pub fn size(&self) -> usize
        ensures { result ≡ size_of self.now }
    {
        self.numbers.size()
    }

    // The lowest channel above n; none for every n from 1023 up.
    pub fn next_above(&self, n: u16) -> Option<u16>
        ensures { result ≡ next_above self.now n }
    {
        if n >= CHANNELS - 1 {
            return None;
        }
        self.numbers.lowest_from(n + 1)
    }

    // The lowest channel that `allowed` has not.
    #[tactic(auto, unfolding(crate::specs::Sets::holds))]
    pub fn lowest_outside(&self, allowed: &ChannelSet) -> Option<u16>
        ensures { result ≡ first_outside self.now allowed.now }
    {
        self.numbers.lowest_outside(&allowed.numbers)
    }

    pub fn is_within(&self, allowed: &ChannelSet) -> bool
        ensures { result ≡ within self.now allowed.now }
    {
        self.lowest_outside(allowed).is_none()
    }

    // Writes the channels, rising, to the front of `out`, and says how many there are: no call has room of its own for them.
    pub fn members(&self, out: &mut [u16; 1024]) -> usize
        ensures count { result ≡ size_of self.now }
        ensures front { take result out.new ≡ members_of self.now }
        ensures rest { drop result out.new ≡ drop result out.old }
    {
        let mut n: usize = 0;
        // over the words' numbers, and not the words: the number is what says which channels a word has
        for word in 0..WORDS {
            n = self.list_word(word, n, out);
        }
        n
    }
}
