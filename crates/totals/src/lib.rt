// Document 02, request 11: exact totals of windows. All is tried before anything is written.
#![tactic(auto)]

ghost use Rattle.std.specs.Prelude.{◌≡◌, true, List, [], ◌∷◌, ℕ, length, ℤ};
ghost use Rattle.meaning.specs.Parts.{each};
ghost use Rattle.meaning.specs.Column.{sequence_of, sound};
ghost use Rattle.meaning.specs.Naming.{column_now, sequence, source, Leaves};
ghost use Rattle.totals.specs.Totals.{has_high, edges_of, total_of};
ghost use Rattle.totals.specs.Windows.{short};
ghost use Rattle.totals.specs.Says.{says_totalled, totalling, counts_in, leasts_in, greatests_in, highs_in, lows_in};
ghost use Rattle.totals.specs.Inner.{Within, Inside, Holds, sum_in, count_at, add_up, up_in, sound_in, rooms_in};

use crate::summing::{Sums, has_high, high_of, low_of, unbias};
use crate::walking::{Counting, count_all, end_before, measure};
use crate::writing::write_all;
use checked::{Checked, check};
use meaning::Refusal;

pub mod summing;
pub mod walking;
pub mod writing;

// The least and the greatest, where there are any.
#[derive(Clone, Copy)]
pub enum Edges {
    None,
    Are(i64, i64),
}

// Over all windows: how many elements, the least and the greatest, and the sum, which is high · 2^32 + low.
#[derive(Clone, Copy)]
pub struct Total {
    pub count: u64,
    pub edges: Edges,
    pub high: i64,
    pub low: u64,
}

// The total over all windows, or a refusal.
#[derive(Clone, Copy)]
pub enum Totalled {
    All(Total),
    Refused(Refusal),
}

// Whether an output has fewer places than there are windows.
fn is_short(
    n: usize,
    counts: usize,
    leasts: usize,
    greatests: usize,
    highs: usize,
    lows: usize,
) -> bool
    ensures { result ≡ short n (counts ∷ leasts ∷ greatests ∷ highs ∷ lows ∷ []) }
{
    if counts < n {
        return true;
    }
    if leasts < n {
        return true;
    }
    if greatests < n {
        return true;
    }
    if highs < n {
        return true;
    }
    lows < n
}

// The least and the greatest of the elements that sums hold.
fn edges_of(s: Sums, count: u64) -> Edges
    ensures { (xs : List ℤ) (m : ℕ) → Holds s xs m → count ≡ length xs → result ≡ edges_of xs }
{
    if count == 0 {
        return Edges::None;
    }
    Edges::Are(unbias(s.least), unbias(s.greatest))
}

// The total of the count elements that sums hold.
fn total_of(s: Sums, count: u64) -> Total
    requires within { Within s 2097152 }
    requires count_value { has_high (sum_in s count) ≡ true }
    ensures { (xs : List ℤ) (m : ℕ) → Holds s xs m → count ≡ length xs → result ≡ total_of xs }
{
    let edges = edges_of(s, count);
    let high = high_of(s, count);
    let low = low_of(s, count);
    Total {
        count,
        edges,
        high,
        low,
    }
}

// The total of windows that passed their tests: refused 18, 10, or given.
fn total_up(
    starts: &[i64],
    ends: &[u64],
    steps: &[i16],
    from: &[u64],
    to: &[u64],
    numbers: &[u64],
    count: u64,
    counts: &mut [u64],
    leasts: &mut [i64],
    greatests: &mut [i64],
    highs: &mut [i64],
    lows: &mut [u64],
) -> Totalled
    requires steps_value { sound (column_now starts ends steps) ≡ true }
    requires inside { Inside (sequence_of (column_now starts ends steps)) from.now to.now }
    requires numbers_value { (numbers.now ≡ each (count_at from.now to.now) (length from.now)) × (count ≡ add_up (count_at from.now to.now) (length from.now)) }
    ensures result_value { says_totalled result ≡ up_in from to (sequence starts ends steps) (rooms_in counts leasts greatests highs lows) }
    ensures leaves { Leaves counts (says_totalled result) (counts_in from to (sequence starts ends steps)) }
    ensures leaves_2 { Leaves leasts (says_totalled result) (leasts_in from to (sequence starts ends steps) leasts) }
    ensures leaves_3 { Leaves greatests (says_totalled result) (greatests_in from to (sequence starts ends steps) greatests) }
    ensures leaves_4 { Leaves highs (says_totalled result) (highs_in from to (sequence starts ends steps)) }
    ensures leaves_5 { Leaves lows (says_totalled result) (lows_in from to (sequence starts ends steps)) }
{
    let n = numbers.len();
    let mut least = [0i64; 256];
    let mut greatest = [0i64; 256];
    let mut high = [0i64; 256];
    let mut low = [0u64; 256];
    let all = measure(
        starts,
        ends,
        steps,
        from,
        to,
        &mut least,
        &mut greatest,
        &mut high,
        &mut low,
    );
    if !has_high(all, count) {
        return Totalled::Refused(Refusal::Total);
    }
    if is_short(
        n,
        counts.len(),
        leasts.len(),
        greatests.len(),
        highs.len(),
        lows.len(),
    ) {
        return Totalled::Refused(Refusal::Room);
    }
    write_all(
        numbers,
        &least[..n],
        &greatest[..n],
        &high[..n],
        &low[..n],
        counts,
        leasts,
        greatests,
        highs,
        lows,
    );
    Totalled::All(total_of(all, count))
}

// The totals of a sound column: refused 8, 5, 18, 10, or given.
fn totals_sound(
    starts: &[i64],
    ends: &[u64],
    steps: &[i16],
    from: &[u64],
    to: &[u64],
    counts: &mut [u64],
    leasts: &mut [i64],
    greatests: &mut [i64],
    highs: &mut [i64],
    lows: &mut [u64],
) -> Totalled
    requires { sound (column_now starts ends steps) ≡ true }
    ensures result_value { says_totalled result ≡ sound_in from to (sequence starts ends steps) (rooms_in counts leasts greatests highs lows) }
    ensures leaves { Leaves counts (says_totalled result) (counts_in from to (sequence starts ends steps)) }
    ensures leaves_2 { Leaves leasts (says_totalled result) (leasts_in from to (sequence starts ends steps) leasts) }
    ensures leaves_3 { Leaves greatests (says_totalled result) (greatests_in from to (sequence starts ends steps) greatests) }
    ensures leaves_4 { Leaves highs (says_totalled result) (highs_in from to (sequence starts ends steps)) }
    ensures leaves_5 { Leaves lows (says_totalled result) (lows_in from to (sequence starts ends steps)) }
{
    let n = from.len();
    if 256 < n {
        return Totalled::Refused(Refusal::Bounds);
    }
    if to.len() != n {
        return Totalled::Refused(Refusal::Bounds);
    }
    let mut numbers = [0u64; 256];
    match count_all(from, to, end_before(ends, ends.len()), &mut numbers) {
        Counting::Beyond => Totalled::Refused(Refusal::Window),
        Counting::All(count) => total_up(
            starts,
            ends,
            steps,
            from,
            to,
            &numbers[..n],
            count,
            counts,
            leasts,
            greatests,
            highs,
            lows,
        ),
    }
}

// Of each window the number of its elements, the least, the greatest, the high and the low of their sum; answers the same over all windows. An empty
// window's places of least and greatest stay as they were. Refused 1, 2, 3, 8, 5, 18, 10: all outputs are then as they were.
pub fn totals(
    starts: &[i64],
    ends: &[u64],
    steps: &[i16],
    from: &[u64],
    to: &[u64],
    counts: &mut [u64],
    leasts: &mut [i64],
    greatests: &mut [i64],
    highs: &mut [i64],
    lows: &mut [u64],
) -> Totalled
    ensures result_value { says_totalled result ≡ totalling from to (source starts ends steps) counts leasts greatests highs lows }
    ensures leaves { Leaves counts (says_totalled result) (counts_in from to (sequence starts ends steps)) }
    ensures leaves_2 { Leaves leasts (says_totalled result) (leasts_in from to (sequence starts ends steps) leasts) }
    ensures leaves_3 { Leaves greatests (says_totalled result) (greatests_in from to (sequence starts ends steps) greatests) }
    ensures leaves_4 { Leaves highs (says_totalled result) (highs_in from to (sequence starts ends steps)) }
    ensures leaves_5 { Leaves lows (says_totalled result) (lows_in from to (sequence starts ends steps)) }
{
    match check(starts, ends, steps) {
        Checked::Refused(why) => Totalled::Refused(why),
        Checked::Fine => totals_sound(
            starts, ends, steps, from, to, counts, leasts, greatests, highs, lows,
        ),
    }
}
