//! The ways of a set, in arrays that have the ways of all sets.

ghost use Rattle.std.specs.Prelude.{◌≡◌, ◌+◌, ◌-◌, ◌<◌, ◌≤◌, ℕ, length, slice_index};
ghost use Rattle.poison_cache.specs.declared.sets.TheConstants.{MOST_HELD};
ghost use Rattle.poison_cache.specs.Ranks.{AreRanks, way_of, renewed, IsPromoted};
ghost use Rattle.poison_cache.specs.Ways.{flag_of, IsWayOf, ranks_from, IsEmptyAt, IsFirstEmpty};

/// Whether a way holds a line, and whether that is to be written back.
#[derive(Clone, Copy)]
pub(crate) enum Flag {
    /// It holds no line.
    Empty,
    /// Its line is as it was read from below.
    Clean,
    /// Its line is to be written back.
    Dirty,
}

impl Flag {
    /// The flag of a way that holds a line.
    pub(crate) fn held(dirty: bool) -> Flag
        ensures { result ≡ flag_of dirty }
    {
        if dirty { Flag::Dirty } else { Flag::Clean }
    }
}

/// The way that holds a line, among those from `first` on.
#[inline]
pub(crate) fn way_of_line(
    lines: &[u32],
    flags: &[Flag],
    first: usize,
    ways: usize,
    line: u32,
) -> Option<usize>
    requires lines { first + ways ≤ length lines.now }
    requires flags { first + ways ≤ length flags.now }
    ensures { IsWayOf lines.now flags.now first ways line result }
{
    for way in first..first + ways {
        if lines[way] == line {
            match flags[way] {
                Flag::Empty => (),
                Flag::Clean | Flag::Dirty => return Some(way),
            }
        }
    }
    None
}

/// The way that has a rank, among those from `first` on.
#[inline]
pub(crate) fn way_of_rank(ranks: &[u16], first: usize, ways: usize, rank: u16) -> usize
    requires inside { first + ways ≤ length ranks.now }
    requires ranks { AreRanks ways (ranks_from ranks.now first) }
    requires rank { rank < ways }
    ensures way { result ≡ first + way_of (ranks_from ranks.now first) ways rank }
    ensures inside { result < first + ways }
{
    for way in first..first + ways {
        if ranks[way] == rank {
            return way;
        }
    }
    unreachable!()
}

/// The least recent of the ways from `first` on.
#[inline]
pub(crate) fn last_way(ranks: &[u16], first: usize, ways: usize) -> usize
    requires inside { first + ways ≤ length ranks.now }
    requires ranks { AreRanks ways (ranks_from ranks.now first) }
    requires some { 1 ≤ ways }
    requires few { ways ≤ MOST_HELD }
    ensures way { result ≡ first + way_of (ranks_from ranks.now first) ways (ways - 1) }
    ensures inside { result < first + ways }
{
    way_of_rank(ranks, first, ways, (ways - 1) as u16)
}

/// A rank after the way of rank `hit` became the most recent.
#[inline]
fn renewed(hit: u16, rank: u16) -> u16
    ensures { result ≡ renewed hit rank }
{
    if rank == hit {
        0
    } else if rank < hit {
        rank + 1
    } else {
        rank
    }
}

/// The way of rank `hit` becomes the most recent of those from `first` on.
#[inline]
fn renew(ranks: &mut [u16], first: usize, ways: usize, hit: u16)
    requires { first + ways ≤ length ranks.old }
    ensures { IsPromoted ranks.old ranks.new first ways hit }
{
    for way in first..first + ways {
        ranks[way] = renewed(hit, ranks[way]);
    }
}

/// A way becomes the most recent of those from `first` on. The most recent one changes nothing.
#[inline]
pub(crate) fn promote(ranks: &mut [u16], first: usize, ways: usize, way: usize)
    requires inside { first + ways ≤ length ranks.old }
    requires way { way < length ranks.old }
    ensures { IsPromoted ranks.old ranks.new first ways (slice_index ranks.old way) }
{
    let hit = ranks[way];
    if hit > 0 {
        renew(ranks, first, ways, hit);
    }
}

/// The way of the lowest rank that holds no line, among those from `first` on, of which there is one.
pub(crate) fn empty_way(ranks: &[u16], flags: &[Flag], first: usize, ways: usize) -> usize
    requires inside { first + ways ≤ length ranks.now }
    requires flags { first + ways ≤ length flags.now }
    requires ranks { AreRanks ways (ranks_from ranks.now first) }
    requires few { ways ≤ MOST_HELD }
    requires empty { (r : ℕ) × (r < ways) × IsEmptyAt flags.now (first + way_of (ranks_from ranks.now first) ways r) }
    ensures way { IsFirstEmpty ranks.now flags.now first ways result }
    ensures inside { result < first + ways }
{
    for rank in 0..ways {
        let way = way_of_rank(ranks, first, ways, rank as u16);
        match flags[way] {
            Flag::Empty => return way,
            Flag::Clean | Flag::Dirty => (),
        }
    }
    unreachable!()
}

/// All ways hold no line.
pub(crate) fn empty_all(flags: &mut [Flag])
    ensures { (i : ℕ) → IsEmptyAt flags.new i }
{
    for flag in flags.iter_mut() {
        *flag = Flag::Empty;
    }
}
