// Which runs may have elements in a window: found by halving, so that a short window of a long column costs its own runs and no others.
ghost use Rattle.std.specs.Prelude.{◌≤◌, ◌<◌, length};
ghost use Rattle.profiles.specs.Inner.{Split, Covers};

use keys::bias;

// The runs begin..stop.
#[derive(Clone, Copy)]
pub(crate) struct Span {
    pub(crate) begin: usize,
    pub(crate) stop: usize,
}

// A run, not before low, between those that begin below a key and those that do not.
fn run_from(starts: &[i64], low: usize, x: u64) -> usize
    requires { low ≤ length starts.now }
    ensures { Split starts.now low x result }
{
    let mut lo = low;
    let mut hi = starts.len();
    while lo < hi {
        let mid = lo + (hi - lo) / 2;
        if bias(starts[mid]) < x {
            lo = mid + 1;
        } else {
            hi = mid;
        }
    }
    lo
}

// From the last run that begins at the window's first record or below it, up to the first that begins at its end or above.
pub(crate) fn span_of(starts: &[i64], from: u64, to: u64) -> Span
    requires { (from < 4294967296) × (to < 4294967296) }
    ensures { Covers starts.now from to result.begin result.stop }
{
    let after = run_from(starts, 0, from + 9223372036854775809);
    let stop = run_from(starts, after, to + 9223372036854775808);
    if after == 0 {
        return Span { begin: after, stop };
    }
    Span {
        begin: after - 1,
        stop,
    }
}
