//! The rows, and the passes over them.
ghost use Rattle.std.specs.Prelude.{false, ◌≡◌, ℕ, ◌+◌, ◌<◌, ◌≤◌, ◌^◌, length, slice_index};
ghost use Rattle.row_gains.specs.Rows.{IsCutRow, lost_by_cut, gained_by_cut};
ghost use Rattle.row_gains.specs.Rows.{IsSwapRow, lost_by_swap, gained_by_swap};
ghost use Rattle.row_gains.specs.Rows.{IsReverseRow, lost_by_reverse, gained_by_reverse};

/// Rows of fewer candidates are not gone through twice.
const FEW: usize = 10;

/// The others are gone through in steps of so many candidates at once, of which the last step may begin inside the one before.
const STEP: usize = 8;

/// The greatest cost of which twice as much fits in 32 bits.
const HALF: u32 = 2_147_483_647;

/// What the way at a place of a row costs.
#[inline(always)]
pub fn way_at(ways: &[u32], place: usize) -> u64
    requires { place < length ways.now }
    ensures value { result ≡ slice_index ways.now place }
    ensures small { result < 2 ^ 32 }
{
    u64::from(ways[place])
}

/// What the ways cost that the candidates of a row lose and gain, of which one stands at each of some stops.
pub trait RowCosts {
    // What the candidate at a stop loses and gains, and whether the row has one there.
    ghost loses: { Self → ℕ → ℕ };

    ghost gains: { Self → ℕ → ℕ };

    ghost has: { Self → ℕ → Type 0 };

    /// What the ways cost that the candidate at a stop loses.
    fn lost(&self, k: usize) -> u64
        requires { has self.now k }
        ensures value { result ≡ loses self.now k }
        ensures small { result < 2 ^ 43 };

    /// What the ways cost that it gains.
    fn gained(&self, k: usize) -> u64
        requires { has self.now k }
        ensures value { result ≡ gains self.now k }
        ensures small { result < 2 ^ 43 };
}

/// A row of candidates. A function that has the kind of row as a type parameter looks at the kind once, and not at each candidate.
pub trait Row: RowCosts {
    /// Whether `first_gain` may find an index. Over a short row no pass is made to see it.
    fn may_gain(&self, lost: u64, wanted: u64, from: usize, end: usize) -> bool
        requires lost { lost < 2 ^ 51 }
        requires wanted { wanted < 2 ^ 61 }
        requires order { from ≤ end }
        requires row { (k : ℕ) → from ≤ k → k < end → Self.has self.now k }
        ensures { result ≡ false → (k : ℕ) → k < end → from ≤ k → lost + Self.loses self.now k ≤ wanted + Self.gains self.now k };
}

/// What the ways of a row of cuts cost: each cut, at a stop, replaces the way from there to the next stop by a way from the stop to something
/// and a way from something to the next stop.
#[derive(Clone, Copy)]
pub struct CutRow<'a> {
    /// The way from each stop to the next.
    pub edges: &'a [u32],
    /// None of `edges` costs more.
    pub most: u32,
    /// The way from each stop to what comes next instead.
    pub to: &'a [u32],
    /// The way to each stop from what comes before it instead.
    pub on: &'a [u32],
}

/// What the ways of a row of swaps cost: each swaps a given stop with one of a row of stops.
#[derive(Clone, Copy)]
pub struct SwapRow<'a> {
    /// The way from each stop to the next.
    pub edges: &'a [u32],
    /// None of `edges` costs more.
    pub most: u32,
    /// The way to each stop from the one before the given stop.
    pub before: &'a [u32],
    /// The way to each stop from the given stop.
    pub here: &'a [u32],
    /// The way from each stop to the one after the given stop.
    pub next: &'a [u32],
    /// The way from each stop to the given stop.
    pub back: &'a [u32],
}

/// What the ways of a row of reverses cost: each reverses the stops from a given one up to one of a row of stops.
#[derive(Clone, Copy)]
pub struct ReverseRow<'a> {
    /// The way from each stop to the next.
    pub edges: &'a [u32],
    /// The ways up to each stop.
    pub sums: &'a [u64],
    /// The ways up to each stop, driven back.
    pub back_sums: &'a [u64],
    /// The way to each stop from the one before the given stop.
    pub before: &'a [u32],
    /// The way to each stop from the given stop.
    pub here: &'a [u32],
}

impl<'a> RowCosts for CutRow<'a> {
    ghost loses = { λ row k. lost_by_cut row k };

    ghost gains = { λ row k. gained_by_cut row k };

    ghost has = { λ row k. IsCutRow row (k + 1) };

    #[inline(always)]
    fn lost(&self, k: usize) -> u64 {
        way_at(self.edges, k)
    }

    #[inline(always)]
    fn gained(&self, k: usize) -> u64 {
        way_at(self.to, k) + way_at(self.on, k + 1)
    }
}

impl<'a> Row for CutRow<'a> {
    /// By the row's `most`, and else by one pass without branches.
    #[inline(always)]
    fn may_gain(&self, lost: u64, wanted: u64, from: usize, end: usize) -> bool {
        if lost + u64::from(self.most) <= wanted {
            return false;
        }
        if end - from < FEW {
            return true;
        }
        if lost <= wanted {
            let more = (wanted - lost).min(4_294_967_295) as u32;
            return may_gain_steps_over(more, self, from, end);
        }
        may_gain_wide(self, lost, wanted, from, end)
    }
}

impl<'a> RowCosts for SwapRow<'a> {
    ghost loses = { λ row k. lost_by_swap row k };

    ghost gains = { λ row k. gained_by_swap row k };

    ghost has = { λ row k. (1 ≤ k) × IsSwapRow row (k + 1) };

    #[inline(always)]
    fn lost(&self, k: usize) -> u64 {
        way_at(self.edges, k - 1) + way_at(self.edges, k)
    }

    #[inline(always)]
    fn gained(&self, k: usize) -> u64 {
        way_at(self.before, k)
            + way_at(self.next, k)
            + way_at(self.back, k - 1)
            + way_at(self.here, k + 1)
    }
}

impl<'a> Row for SwapRow<'a> {
    /// By twice the row's `most`, and else by one pass without branches.
    #[inline(always)]
    fn may_gain(&self, lost: u64, wanted: u64, from: usize, end: usize) -> bool {
        if lost + 2 * u64::from(self.most) <= wanted {
            return false;
        }
        if end - from < FEW {
            return true;
        }
        if lost <= wanted && self.most <= HALF {
            let more = (wanted - lost).min(4_294_967_295) as u32;
            return may_swap_gain_steps(more, self, from, end);
        }
        may_gain_wide(self, lost, wanted, from, end)
    }
}

impl<'a> RowCosts for ReverseRow<'a> {
    ghost loses = { λ row k. lost_by_reverse row k };

    ghost gains = { λ row k. gained_by_reverse row k };

    ghost has = { λ row k. IsReverseRow row (k + 1) };

    #[inline(always)]
    fn lost(&self, k: usize) -> u64 {
        self.sums[k] + way_at(self.edges, k)
    }

    #[inline(always)]
    fn gained(&self, k: usize) -> u64 {
        way_at(self.before, k) + self.back_sums[k] + way_at(self.here, k + 1)
    }
}

impl<'a> Row for ReverseRow<'a> {
    /// By one pass without branches.
    #[inline(always)]
    fn may_gain(&self, lost: u64, wanted: u64, from: usize, end: usize) -> bool {
        end - from < FEW || may_gain_wide(self, lost, wanted, from, end)
    }
}

/// The first index from one on and before another at which `lost` and the ways lost there cost more than `wanted` and the ways gained there;
/// the other index where there is none.
#[inline(always)]
pub fn first_gain<R: RowCosts>(row: &R, lost: u64, wanted: u64, from: usize, end: usize) -> usize
    requires lost { lost < 2 ^ 51 }
    requires wanted { wanted < 2 ^ 61 }
    requires order { from ≤ end }
    requires row { (k : ℕ) → from ≤ k → k < end → R.has row.now k }
    ensures low { from ≤ result }
    ensures high { result ≤ end }
    ensures none { (k : ℕ) → k < result → from ≤ k → lost + R.loses row.now k ≤ wanted + R.gains row.now k }
    ensures found { result < end → wanted + R.gains row.now result < lost + R.loses row.now result }
{
    for k in from..end {
        let all_gained = wanted + row.gained(k);
        let all_lost = lost + row.lost(k);
        if all_gained < all_lost {
            return k;
        }
    }
    end
}

/// Whether it may find one, in one pass without branches.
#[inline(always)]
fn may_gain_wide<R: RowCosts>(row: &R, lost: u64, wanted: u64, from: usize, end: usize) -> bool
    requires lost { lost < 2 ^ 51 }
    requires wanted { wanted < 2 ^ 61 }
    requires order { from ≤ end }
    requires row { (k : ℕ) → from ≤ k → k < end → R.has row.now k }
    ensures { result ≡ false → (k : ℕ) → k < end → from ≤ k → lost + R.loses row.now k ≤ wanted + R.gains row.now k }
{
    let mut gains = false;
    for k in from..end {
        let all_gained = wanted + row.gained(k);
        let all_lost = lost + row.lost(k);
        if all_gained < all_lost {
            gains = true;
        }
    }
    gains
}

/// Whether a way lost may cost more than `more` and the ways gained, in one pass without branches. No sum is made, so that 32 bits are enough,
/// and four numbers go through at once.
#[inline(always)]
fn may_gain_over(more: u32, row: &CutRow, from: usize, end: usize) -> bool
    requires order { from ≤ end }
    requires row { IsCutRow row.now end }
    ensures { result ≡ false → (k : ℕ) → k < end → from ≤ k → lost_by_cut row.now k ≤ more + gained_by_cut row.now k }
{
    let edges = row.edges;
    let to = row.to;
    let on = row.on;
    let mut gains = false;
    for k in from..end {
        let left = edges[k].saturating_sub(more).saturating_sub(to[k]);
        if on[k + 1] < left {
            gains = true;
        }
    }
    gains
}

/// The end of the whole steps of a row.
#[inline(always)]
fn steps_end(from: usize, end: usize) -> usize
    requires long { from + 8 ≤ end }
    ensures low { from ≤ result }
    ensures high { result ≤ end }
    ensures last { end < result + 8 }
{
    end - (end - from) % STEP
}

/// What `may_gain_over` says of a row, in steps.
#[inline(always)]
fn may_gain_steps_over(more: u32, row: &CutRow, from: usize, end: usize) -> bool
    requires long { from + 8 ≤ end }
    requires row { IsCutRow row.now end }
    ensures { result ≡ false → (k : ℕ) → k < end → from ≤ k → lost_by_cut row.now k ≤ more + gained_by_cut row.now k }
{
    let whole = steps_end(from, end);
    if may_gain_over(more, row, from, whole) {
        return true;
    }
    may_gain_over(more, row, end - STEP, end)
}

/// Whether two ways lost may cost more than `more` and the ways gained, in one pass without branches. The two together fit in 32 bits.
#[inline(always)]
fn may_swap_gain_over(more: u32, row: &SwapRow, from: usize, end: usize) -> bool
    requires begin { 1 ≤ from }
    requires order { from ≤ end }
    requires row { IsSwapRow row.now end }
    requires half { row.now.most ≤ 2147483647 }
    ensures { result ≡ false → (k : ℕ) → k < end → from ≤ k → lost_by_swap row.now k ≤ more + gained_by_swap row.now k }
{
    let edges = row.edges;
    let before = row.before;
    let here = row.here;
    let next = row.next;
    let back = row.back;
    let mut gains = false;
    for k in from..end {
        let both = edges[k - 1] + edges[k];
        let left = both
            .saturating_sub(more)
            .saturating_sub(before[k])
            .saturating_sub(next[k])
            .saturating_sub(back[k - 1]);
        if here[k + 1] < left {
            gains = true;
        }
    }
    gains
}

/// What `may_swap_gain_over` says of a row, in steps.
#[inline(always)]
fn may_swap_gain_steps(more: u32, row: &SwapRow, from: usize, end: usize) -> bool
    requires begin { 1 ≤ from }
    requires long { from + 8 ≤ end }
    requires row { IsSwapRow row.now end }
    requires half { row.now.most ≤ 2147483647 }
    ensures { result ≡ false → (k : ℕ) → k < end → from ≤ k → lost_by_swap row.now k ≤ more + gained_by_swap row.now k }
{
    let whole = steps_end(from, end);
    if may_swap_gain_over(more, row, from, whole) {
        return true;
    }
    may_swap_gain_over(more, row, end - STEP, end)
}
