// A batch listing, one a line: the answer, then the whole output and the whole of the counts, so that what a call leaves alone shows too.
ghost use Rattle.std.specs.Prelude.{◌≤◌};

use bounds::{Bound, BoundaryType, Bounds, Mode};
use loftsplice::listing::list;
use shown::text;

pub(crate) fn none() -> Bounds {
    Bounds {
        items: [Bound {
            boundary: BoundaryType::Inclusive,
            value: 0,
        }; 16],
        count: 0,
    }
}

pub(crate) fn inclusive(value: i64) -> Bounds {
    Bounds {
        items: [Bound {
            boundary: BoundaryType::Inclusive,
            value,
        }; 16],
        count: 1,
    }
}

pub(crate) fn exclusive(value: i64) -> Bounds {
    Bounds {
        items: [Bound {
            boundary: BoundaryType::Exclusive,
            value,
        }; 16],
        count: 1,
    }
}

// A value given both ways.
pub(crate) fn both(value: i64) -> Bounds {
    let mut items = [Bound {
        boundary: BoundaryType::Inclusive,
        value,
    }; 16];
    items[1] = Bound {
        boundary: BoundaryType::Exclusive,
        value,
    };
    Bounds { items, count: 2 }
}

pub(crate) fn so_many(count: usize) -> Bounds {
    Bounds {
        items: [Bound {
            boundary: BoundaryType::Inclusive,
            value: 0,
        }; 16],
        count,
    }
}

pub(crate) fn values(rt: &HostRuntime, out: &[i64]) {
    let mut i = 0;
    while i < out.len() {
        text(rt, b" ");
        shown::signed(rt, out[i]);
        i += 1;
    }
}

pub(crate) fn numbers(rt: &HostRuntime, counts: &[u64]) {
    let mut i = 0;
    while i < counts.len() {
        text(rt, b" ");
        shown::unsigned(rt, counts[i]);
        i += 1;
    }
}

// A listing into an output and counts, and how it leaves them.
fn into(
    rt: &HostRuntime,
    starts: &[i64],
    ends: &[u64],
    steps: &[i16],
    from: &[u64],
    to: &[u64],
    mode: Mode,
    lower: Bounds,
    upper: Bounds,
    out: &mut [i64],
    counts: &mut [u64],
) {
    shown::listed(
        rt,
        list(
            starts, ends, steps, from, to, mode, lower, upper, out, counts,
        ),
    );
    text(rt, b" |");
    values(rt, out);
    text(rt, b" |");
    numbers(rt, counts);
    text(rt, b"\n");
}

// The first n of the starts and the first m of the ends are windows; room for so many values of 16 and so many counts of 8.
fn within_by(
    rt: &HostRuntime,
    starts: &[i64],
    ends: &[u64],
    steps: &[i16],
    n: usize,
    m: usize,
    from: [u64; 4],
    to: [u64; 4],
    mode: Mode,
    lower: Bounds,
    upper: Bounds,
    room: usize,
    places: usize,
)
    requires { (n ≤ 4) × (m ≤ 4) × (room ≤ 16) × (places ≤ 8) }
{
    let mut out = [-7i64; 16];
    let mut counts = [99u64; 8];
    into(
        rt,
        starts,
        ends,
        steps,
        &from[..n],
        &to[..m],
        mode,
        lower,
        upper,
        &mut out[..room],
        &mut counts[..places],
    );
}

// Where the inclusive bound wins.
pub(crate) fn within(
    rt: &HostRuntime,
    starts: &[i64],
    ends: &[u64],
    steps: &[i16],
    n: usize,
    m: usize,
    from: [u64; 4],
    to: [u64; 4],
    lower: Bounds,
    upper: Bounds,
    room: usize,
    places: usize,
)
    requires { (n ≤ 4) × (m ≤ 4) × (room ≤ 16) × (places ≤ 8) }
{
    let mode = Mode::InclusiveWins;
    within_by(
        rt, starts, ends, steps, n, m, from, to, mode, lower, upper, room, places,
    );
}

// Where the exclusive bound wins, with room for all.
pub(crate) fn strict(
    rt: &HostRuntime,
    starts: &[i64],
    ends: &[u64],
    steps: &[i16],
    n: usize,
    from: [u64; 4],
    to: [u64; 4],
    lower: Bounds,
    upper: Bounds,
)
    requires { n ≤ 4 }
{
    let mode = Mode::ExclusiveWins;
    within_by(
        rt, starts, ends, steps, n, n, from, to, mode, lower, upper, 16, 8,
    );
}

// With room for all.
pub(crate) fn line(
    rt: &HostRuntime,
    starts: &[i64],
    ends: &[u64],
    steps: &[i16],
    n: usize,
    from: [u64; 4],
    to: [u64; 4],
    lower: Bounds,
    upper: Bounds,
)
    requires { n ≤ 4 }
{
    within(rt, starts, ends, steps, n, n, from, to, lower, upper, 16, 8);
}

// So many windows from 7 to one end.
pub(crate) fn many(
    rt: &HostRuntime,
    starts: &[i64],
    ends: &[u64],
    steps: &[i16],
    n: usize,
    end: u64,
    places: usize,
)
    requires { (n ≤ 257) × (places ≤ 256) }
{
    let from = [7u64; 257];
    let to = [end; 257];
    let mut out = [-7i64; 1];
    let mut counts = [99u64; 256];
    into(
        rt,
        starts,
        ends,
        steps,
        &from[..n],
        &to[..n],
        Mode::InclusiveWins,
        none(),
        none(),
        &mut out,
        &mut counts[..places],
    );
}
