// Writes the tree of a set whose members are listed in rising order: a node costs as much as it has members.
#![tactic(auto)]

ghost use Rattle.std.specs.Prelude.{◌≡◌, ℕ, suc, ◌+◌, ◌-◌, ◌*◌, ◌/◌, ◌^◌, ◌<◌, ◌≤◌, T, length, MatchBool, MatchResult, slice_index};
ghost use Rattle.spread.specs.Members.{Fit, Listed, Outcome, Unfit, among};
ghost use Rattle.spread.specs.Steps.{Beside, Filled, Halves, Parted, Renumbered, ahead as ahead_of, around, splits as splits_of, turn as turn_of};
ghost use Rattle.tree.specs.Laws.{Writing};
ghost use Rattle.tree.specs.Written.{full, pivot as pivot_of, written};

// Why no tree is written.
#[derive(Clone, Copy, PartialEq, Eq, Debug)]
pub enum SpreadFault {
    // the width is over that of the widest circle
    Wide,
    // the table is not longer than the members
    Short,
    // the members do not rise within 1 .. 2^k - 1
    Unlisted,
}

// The circle of the numbers 1 .. 2 * half + 1.
#[derive(Clone, Copy)]
struct Circle {
    half: u16,
    ghost narrow: { half ≤ 511 },
}

impl Circle {
    fn numbers(self) -> u16
        ensures { result ≡ around self.half }
    {
        2 * self.half + 1
    }

    // How far x is after p, round the circle.
    fn ahead(self, p: u16, x: u16) -> u16
        requires from { p ≤ around self.half }
        requires to { x ≤ around self.half }
        ensures { result ≡ ahead_of (around self.half) p x }
    {
        if p < x { x - p } else { x + self.numbers() - p }
    }

    // Gives each member of the part the number of how far it is after p, less what lies between.
    fn renumber(self, part: &mut [u16], p: u16, between: u16)
        requires from { p ≤ around self.half }
        requires within { (i : ℕ) → i < length part.old → slice_index part.old i ≤ around self.half }
        requires far { (i : ℕ) → i < length part.old → between ≤ ahead_of (around self.half) p (slice_index part.old i) }
        ensures { Renumbered (around self.half) p between part.old part.new }
    {
        for x in part.iter_mut() {
            *x = self.ahead(p, *x) - between;
        }
    }

    // Turns the members to the pivot, which stands at j, and cuts those after it: the right ones and the left ones.
    fn turned(self, members: &mut [u16], j: usize) -> (&mut [u16], &mut [u16])
        requires listed { Listed (around self.half) members.old }
        requires there { j < length members.old }
        requires pivot { T (splits_of (around self.half) self.half members.old ((length members.old - 1) / 2) j) }
        ensures { Halves self.half j members.old result.0.now result.1.now }
    {
        let k = (members.len() - 1) / 2;
        members.rotate_left(j);
        let (_, others) = members.split_at_mut(1);
        others.split_at_mut(k)
    }

    // The right and the left members of the pivot, which stands at j, in numbers of their own.
    fn parts(self, members: &mut [u16], j: usize) -> (&mut [u16], &mut [u16])
        requires listed { Listed (around self.half) members.old }
        requires there { j < length members.old }
        requires pivot { T (splits_of (around self.half) self.half members.old ((length members.old - 1) / 2) j) }
        ensures { Parted self.half (slice_index members.old j) members.old result.0.now result.1.now }
    {
        let p = members[j];
        let (right, left) = self.turned(members, j);
        self.renumber(right, p, 0);
        self.renumber(left, p, self.half);
        (right, left)
    }
}

// Members on a circle, in rising order.
#[derive(Clone, Copy)]
struct Ring<'a> {
    circle: Circle,
    members: &'a [u16],
    ghost listed: { Listed (around circle.half) members.now },
}

impl Ring<'_> {
    // The member t, counted on round the circle a second time.
    fn turn(&self, t: usize) -> u16
        requires { t < length self.now.members.now + length self.now.members.now }
        ensures { result ≡ turn_of (around self.now.circle.half) self.now.members.now t }
    {
        let n = self.members.len();
        if t < n {
            self.members[t]
        } else {
            self.members[t - n] + self.circle.numbers()
        }
    }

    // Whether exactly k of the members after the one at j are among the next numbers, as many as half the circle has.
    fn splits(&self, k: usize, j: usize) -> bool
        requires there { j < length self.now.members.now }
        requires round { j + k + 1 < length self.now.members.now + length self.now.members.now }
        ensures { result ≡ splits_of (around self.now.circle.half) self.now.circle.half self.now.members.now k j }
    {
        let reach = self.members[j] + self.circle.half;
        self.turn(j + k) <= reach && reach < self.turn(j + k + 1)
    }

    // Where the lowest pivot stands.
    fn lowest(&self) -> usize
        requires { 1 ≤ length self.now.members.now }
        ensures within { result < length self.now.members.now }
        ensures splits { T (splits_of (around self.now.circle.half) self.now.circle.half self.now.members.now ((length self.now.members.now - 1) / 2) result) }
        ensures pivot { slice_index self.now.members.now result ≡ pivot_of self.now.circle.half (among self.now.members.now) }
    {
        let n = self.members.len();
        let k = (n - 1) / 2;
        match (0..n).find(|&j| self.splits(k, j)) {
            Some(j) => j,
            None => unreachable(),
        }
    }
}

// A part of the tree, of a width: it takes the places j * stride + rest of the table, for j from 1 on. A part of width 0 has no members, and
// so no circle and no parts of its own: these calls require a width, since `write` asks for none of them before it has two members. Places of
// a table and no boxes: so the standard has a tree in octets, and the library has no memory of its own.
#[derive(Clone, Copy)]
struct Part {
    width: u32,
    stride: usize,
    rest: usize,
    ghost narrow: { width ≤ 10 },
    ghost apart: { rest < stride },
    ghost span: { stride * 2 ^ width ≤ 1024 },
}

impl Part {
    // All of the tree.
    fn whole(width: u32) -> Part
        requires { width ≤ 10 }
        ensures width { result.width ≡ width }
        ensures stride { result.stride ≡ 1 }
        ensures rest { result.rest ≡ 0 }
    {
        Part {
            width,
            stride: 1,
            rest: 0,
        }
    }

    // The place of the root, j = 1.
    fn root(self) -> usize
        ensures { result ≡ self.stride + self.rest }
    {
        self.stride + self.rest
    }

    // The circle of the numbers that its members have.
    fn circle(self) -> Circle
        requires { 1 ≤ self.width }
        ensures { result.half ≡ full (self.width - 1) }
    {
        Circle {
            half: (1 << (self.width - 1)) - 1,
        }
    }

    // The left part: the place j there is the place 2 j here. It differs from the right one in `rest` alone; one call for both would ask
    // for a rest below twice the stride.
    fn left(self) -> Part
        requires { 1 ≤ self.width }
        ensures width { result.width ≡ self.width - 1 }
        ensures stride { result.stride ≡ 2 * self.stride }
        ensures rest { result.rest ≡ self.rest }
    {
        Part {
            width: self.width - 1,
            stride: 2 * self.stride,
            rest: self.rest,
        }
    }

    // The right part: the place j there is the place 2 j + 1 here.
    fn right(self) -> Part
        requires { 1 ≤ self.width }
        ensures width { result.width ≡ self.width - 1 }
        ensures stride { result.stride ≡ 2 * self.stride }
        ensures rest { result.rest ≡ self.stride + self.rest }
    {
        Part {
            width: self.width - 1,
            stride: 2 * self.stride,
            rest: self.stride + self.rest,
        }
    }

    // Writes the tree of the members to as many of the places of the table: the parts below the root are written by the same rule, with a
    // width one smaller. What is left in members is of no use.
    fn write(self, members: &mut [u16], table: &mut [u16])
        requires listed { Listed (full self.width) members.old }
        requires long { length members.old * self.stride + self.rest < length table.old }
        ensures here { Filled table.new (length members.old) self.stride self.rest (written self.width (among members.old)) }
        ensures beside { Beside table.old table.new (length members.old) self.stride self.rest }
    {
        let n = members.len();
        if n == 0 {
            return;
        }
        let at = self.root();
        if n == 1 {
            table[at] = members[0];
            return;
        }
        let circle = self.circle();
        let j = Ring { circle, members }.lowest();
        table[at] = members[j];
        let (right, left) = circle.parts(members, j);
        self.right().write(right, table);
        self.left().write(left, table);
    }
}

// Whether the members rise, and are numbers from 1 to 2^k - 1 alone.
fn rises(members: &[u16], k: u32) -> bool
    requires { k ≤ 10 }
    ensures { MatchBool result (Listed (full k) members.now) (Listed (full k) members.now → ⊥) }
{
    let (Some(first), Some(last)) = (members.first(), members.last()) else {
        return true;
    };
    let numbers = 1..1 << k;
    numbers.contains(first) && numbers.contains(last) && members.is_sorted_by(|x, y| *x < *y)
}

// Whether the members may be written at the width k to the table, or what is wrong with them.
fn fits(members: &[u16], k: u32, table: &[u16]) -> Result<(), SpreadFault>
    ensures { MatchResult result (λ _. Fit k members.now table.now) (λ f. Unfit f k members.now table.now) }
{
    if k > tree::WIDEST {
        return Err(SpreadFault::Wide);
    }
    if members.len() >= table.len() {
        return Err(SpreadFault::Short);
    }
    if !rises(members, k) {
        return Err(SpreadFault::Unlisted);
    }
    Ok(())
}

// Does nothing: the laws of writing hold, and calls name them.
fn lawful()
    ensures { Writing }
{}

// Writes the tree of the members, of width k, to the table: W(i) at the index i, from 1 to their number. The rest of the table stays as it is,
// and what is left in members is of no use. Refuses, and leaves both as they are, where k is over 10, the members do not rise within
// 1 .. 2^k - 1, or the table is not longer than the members.
// The laws: any set that is not empty has a pivot; what is written of a set is read as that set, with as many numbers as it has members, each
// of its width, and nulls after them; and the tree has to do with the numbers of the circle alone.
pub fn write(members: &mut [u16], k: u32, table: &mut [u16]) -> Result<(), SpreadFault>
    ensures outcome { Outcome result k members.old members.new table.old table.new }
    ensures laws { Writing }
{
    lawful();
    fits(members, k, table)?;
    Part::whole(k).write(members, table);
    Ok(())
}
