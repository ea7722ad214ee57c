// Where the writer of a set begins on the circle of 1024 channels, and the set as it is seen from there.
#![tactic(auto)]

ghost use Rattle.std.specs.Prelude.{◌≡◌, ◌%◌, ◌<◌, Some};
ghost use Rattle.channels.specs.Sets.{size_of, turned};
ghost use Rattle.origins.specs.Origins.{ahead, can_origin, origin_of, seen_from, lowest_of, later_origin, from_lowest, Begins, Follows};

use channels::{CHANNELS, ChannelSet};

// How far m lies ahead of c.
fn distance(c: u16, m: u16) -> u16
    requires from { c < 1024 }
    requires to { m < 1024 }
    ensures { result ≡ ahead c m }
{
    (m + CHANNELS - c) % CHANNELS
}

fn lowest_member(set: &ChannelSet) -> Option<u16>
    ensures { result ≡ lowest_of set.now }
{
    if set.holds(0) {
        return Some(0);
    }
    set.next_above(0)
}

// The set and the reach are parameters, as of `origin`: a struct of them would be made there and nowhere else.

// Whether a member can be origin. Of all members the one before it round the circle lies farthest ahead.
fn serves(set: &ChannelSet, reach: u16, before: u16, c: u16) -> bool
    requires { Follows set.now before c }
    ensures { result ≡ can_origin set.now reach c }
{
    distance(c, before) <= reach
}

// What one way up through the members finds: the last of them, and the lowest but the first that can be origin.
#[derive(Clone, Copy)]
struct Walk {
    highest: u16,
    later: Option<u16>,
}

fn walk_up(set: &ChannelSet, reach: u16, lowest: u16) -> Walk
    requires { lowest_of set.now ≡ Some lowest }
    ensures last { Follows set.now result.highest lowest }
    ensures later { result.later ≡ later_origin set.now reach lowest 1024 }
{
    let mut highest = lowest;
    let mut later = None;
    // from each member to the next: a list of them would need room for 1024
    while let Some(c) = set.next_above(highest) {
        later = later.or(serves(set, reach, highest, c).then_some(c));
        highest = c;
    }
    Walk { highest, later }
}

// The origin is the lowest member if that can be origin, else a later one: a fact that a call brings in; it costs nothing at run time.
fn lowest_comes_first(set: &ChannelSet, reach: u16)
    ensures means { Begins set.now reach (origin_of set.now reach) }
    ensures order { origin_of set.now reach ≡ from_lowest set.now reach (lowest_of set.now) }
{}

// The lowest channel that can be origin.
pub fn origin(set: &ChannelSet, reach: u16) -> Option<u16>
    ensures value { result ≡ origin_of set.now reach }
    ensures means { Begins set.now reach result }
{
    lowest_comes_first(set, reach);
    let lowest = lowest_member(set)?;
    let found = walk_up(set, reach, lowest);
    if serves(set, reach, found.highest, lowest) {
        return Some(lowest);
    }
    found.later
}

// The set as it is seen from the channel o: c becomes (c - o) mod 1024.
pub fn turned_down(set: &ChannelSet, o: u16) -> ChannelSet
    ensures value { result ≡ seen_from set.now o }
    ensures size { size_of result ≡ size_of set.now }
{
    turned_up(set, CHANNELS - o % CHANNELS)
}

// The way back: c becomes (c + o) mod 1024.
pub fn turned_up(set: &ChannelSet, o: u16) -> ChannelSet
    ensures value { result ≡ turned set.now (o % 1024) }
    ensures size { size_of result ≡ size_of set.now }
{
    let mut turned = *set;
    // this is not over 1023
    let _ = turned.shift(o % CHANNELS);
    turned
}
