// The tree of numbers W(1), W(2), .. that GSM 04.08's range formats write a set of the numbers 1 .. 2^K - 1 as, and F(i), the number that
// the place i of a tree stands for.
#![tactic(auto)]

ghost use Rattle.std.specs.Prelude.{◌≡◌, suc, ◌+◌, ◌-◌, ◌*◌, ◌^◌, ◌<◌, ◌≤◌, length, pos, ◌<ℤ◌, true, MatchResult, unsigned_abs};
ghost use Rattle.tree.specs.declared.TreeFault.TheVariants.{Wide};
ghost use Rattle.tree.specs.Laws.{Reading};
ghost use Rattle.tree.specs.Number.{Read, answer, entries, number as number_of, number_at, reaches as reaches_of};
ghost use Rattle.tree.specs.Smod.{smodℤ};
ghost use Rattle.tree.specs.Steps.{Lifted, spot as spot_of, up as up_of};

// The width of the widest circle, that of range 1024.
pub const WIDEST: u32 = 10;

// Why a tree is not read.
#[derive(Clone, Copy, PartialEq, Eq, Debug)]
pub enum TreeFault {
    // the width is over that of the widest circle
    Wide,
    // a tree of the width has not so many places
    Beyond,
    // the table has not so many numbers
    Short,
}

// n smod m: the number from 1 to m that differs from n by a multiple of m. There is no division where n is at most one turn away.
fn smod(n: i32, m: i32) -> i32
    requires { pos 0 <ℤ m }
    ensures { result ≡ pos (smodℤ n (unsigned_abs m)) }
{
    let t = if n <= 0 {
        n + m
    } else if m < n {
        n - m
    } else {
        n
    };
    if 0 < t && t <= m {
        return t;
    }
    let r = n.rem_euclid(m);
    if r == 0 { m } else { r }
}

// n on the circle of 2 * size - 1 numbers.
fn on_circle(n: i32, size: u16) -> u16
    requires some { 1 ≤ size }
    requires narrow { size ≤ 512 }
    ensures { result ≡ smodℤ n (2 * size - 1) }
{
    smod(n, 2 * size as i32 - 1) as u16
}

// The place of the level l on the way from the place i below it to the root.
fn spot(l: u32, i: usize) -> usize
    requires level { l < 10 }
    requires below { 2 ^ suc l ≤ i }
    ensures { result ≡ spot_of l i }
{
    let level = 1 << l;
    level + i % level
}

// A tree, whose W(i) stands at the index i of a table: so the standard has it in octets, and the library has no memory of its own for boxes.
#[derive(Clone, Copy)]
pub struct Tree<'a> {
    pub table: &'a [u16],
    pub width: u32,
    pub ghost narrow: { width ≤ 10 },
}

// Does nothing: the laws of reading hold, and calls name them.
fn lawful()
    ensures { Reading }
{}

impl<'a> Tree<'a> {
    // Refuses where the width is over 10.
    pub fn new(table: &'a [u16], width: u32) -> Result<Tree<'a>, TreeFault>
        ensures { MatchResult result (λ t. (t.table.now ≡ table.now) × (t.width ≡ width)) (λ f. (f ≡ Wide) × (10 < width)) }
    {
        if width > WIDEST {
            return Err(TreeFault::Wide);
        }
        Ok(Tree { table, width })
    }

    // F(place). None where the place is 0, not below 2^K or not within the table.
    // The laws: F(1), F(2), .. are what the standard's printed formulas say in each range; n smod m is what its words say; F(i) rests on
    // W(1) .. W(i) alone, and is on the circle where W(1) is; and a tree that is read as a set has no fewer numbers than the set has members.
    pub fn number(&self, place: usize) -> Option<u16>
        ensures value { result ≡ number_at self.now.table.now self.now.width place }
        ensures laws { Reading }
    {
        lawful();
        if place == 0 {
            return None;
        }
        self.reach(place).ok()?;
        Some(self.climb(place))
    }

    // Reads F(1), F(2), .., as many as out has room for: all together, level by level. Where the tree or the table has not so many places, it
    // says which, and leaves out as it is.
    pub fn numbers(&self, out: &mut [u16]) -> Result<(), TreeFault>
        ensures answer { result ≡ answer self.now.table.now self.now.width (length out.old) }
        ensures after { MatchResult result (λ _. Read self.now.table.now self.now.width out.new) (λ _. out.new ≡ out.old) }
    {
        self.reach(out.len())?;
        self.read(out);
        Ok(())
    }

    // Whether the places up to this one are in the tree and in the table, or which of them has not so many.
    fn reach(&self, place: usize) -> Result<(), TreeFault>
        ensures { result ≡ answer self.now.table.now self.now.width place }
    {
        if place >= 1 << self.width {
            return Err(TreeFault::Beyond);
        }
        if place >= self.table.len() {
            return Err(TreeFault::Short);
        }
        Ok(())
    }

    // One step up to the level l, from n, which is what the place i below it has come to. The place of that level on the way from i to the
    // root is 2^l + i % 2^l, and the way comes from its left child where the bit l of i is 0: so goes the standard's program, which counts
    // the place down by J and J / 2.
    fn up(&self, l: u32, i: usize, n: u16) -> u16
        requires level { l < self.now.width }
        requires below { 2 ^ suc l ≤ i }
        requires there { i < length self.now.table.now }
        ensures { result ≡ up_of self.now.width (entries self.now.table.now) l i n }
    {
        let size = 1u16 << (self.width - 1 - l);
        let parent = self.table[spot(l, i)] as i32;
        if (i >> l) % 2 == 0 {
            on_circle(parent - size as i32 + n as i32, size)
        } else {
            on_circle(parent + n as i32, size)
        }
    }

    // F(place): from W(place) up to the root, level by level.
    fn climb(&self, place: usize) -> u16
        requires some { 1 ≤ place }
        requires there { reaches_of self.now.table.now self.now.width place ≡ true }
        ensures { result ≡ number_of self.now.width (entries self.now.table.now) place }
    {
        let mut n = self.table[place];
        // levels, from the one above the place up to the root: no list of them is there to go through
        for l in (0..place.ilog2()).rev() {
            n = self.up(l, place, n);
        }
        n
    }

    // Takes what stands in out for the places below the level l one step up to it.
    fn lift(&self, l: u32, out: &mut [u16])
        requires level { l < self.now.width }
        requires below { 2 ^ suc l ≤ suc (length out.old) }
        requires there { length out.old < length self.now.table.now }
        ensures { Lifted self.now.width (entries self.now.table.now) l out.old out.new }
    {
        // the first place below the level
        let first = 2 << l;
        for (j, n) in out[first - 1..].iter_mut().enumerate() {
            *n = self.up(l, first + j, *n);
        }
    }

    // Reads F(1), F(2), .., as many as out has room for.
    fn read(&self, out: &mut [u16])
        requires { reaches_of self.now.table.now self.now.width (length out.old) ≡ true }
        ensures { Read self.now.table.now self.now.width out.new }
    {
        let n = out.len();
        out.copy_from_slice(&self.table[1..n + 1]);
        for l in (0..(n + 1).ilog2()).rev() {
            self.lift(l, out);
        }
    }
}

// F(place) of the tree of width k in a table, for any width: none where it is over 10 either. The laws are those of the method.
pub fn number(table: &[u16], k: u32, place: usize) -> Option<u16>
    ensures value { result ≡ number_at table.now k place }
    ensures laws { Reading }
{
    lawful();
    Tree::new(table, k).ok()?.number(place)
}

// F(1), F(2), .. of the tree of width k in a table, for any width, as many as out has room for.
pub fn numbers(table: &[u16], k: u32, out: &mut [u16]) -> Result<(), TreeFault>
    ensures answer { result ≡ answer table.now k (length out.old) }
    ensures after { MatchResult result (λ _. Read table.now k out.new) (λ _. out.new ≡ out.old) }
{
    Tree::new(table, k)?.numbers(out)
}
