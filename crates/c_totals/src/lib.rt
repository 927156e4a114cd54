// The C interface: exact totals.
#![tactic(auto)]

ghost use Rattle.std.specs.Prelude.{◌≡◌};
ghost use Rattle.meaning.specs.Naming.{sequence, source, Leaves};
ghost use Rattle.totals.specs.Says.{says_totalled, totalling, counts_in, leasts_in, greatests_in, highs_in, lows_in};
ghost use Rattle.c_totals.specs.Totals.{flat_total, flat_totalled};

use loftsplice::refusal::number;
use totals::{Edges, Total, Totalled, totals};

// A refusal's number or 0; over all windows how many elements; 1 and the least and the greatest, or 0 and two zeros; the high and the low of the sum.
#[repr(C)]
#[derive(Clone, Copy)]
pub struct FlatTotalled {
    pub refusal: u32,
    pub found: u32,
    pub count: u64,
    pub least: i64,
    pub greatest: i64,
    pub high: i64,
    pub low: u64,
}

fn flat_total(total: Total) -> FlatTotalled
    ensures { result ≡ flat_total 0 total }
{
    let edges = total.edges;
    match edges {
        Edges::None => FlatTotalled {
            refusal: 0,
            found: 0,
            count: total.count,
            least: 0,
            greatest: 0,
            high: total.high,
            low: total.low,
        },
        Edges::Are(least, greatest) => FlatTotalled {
            refusal: 0,
            found: 1,
            count: total.count,
            least,
            greatest,
            high: total.high,
            low: total.low,
        },
    }
}

fn flat_totalled(answer: Totalled) -> FlatTotalled
    ensures { result ≡ flat_totalled (says_totalled answer) }
{
    match answer {
        Totalled::All(total) => flat_total(total),
        Totalled::Refused(why) => FlatTotalled {
            refusal: number(why),
            found: 0,
            count: 0,
            least: 0,
            greatest: 0,
            high: 0,
            low: 0,
        },
    }
}

// The totals of each window from..to, into the first places of five arrays, and over all windows; or refused 1, 2, 3, 8, 5, 18, 10.
#[unsafe(no_mangle)]
pub extern "C" fn loftsplice_totals(
    starts: &[i64],
    ends: &[u64],
    steps: &[i16],
    from: &[u64],
    to: &[u64],
    counts: &mut [u64],
    leasts: &mut [i64],
    greatests: &mut [i64],
    highs: &mut [i64],
    lows: &mut [u64],
) -> FlatTotalled
    ensures value { result ≡ flat_totalled (totalling from to (source starts ends steps) counts leasts greatests highs lows) }
    ensures leaves { Leaves counts (totalling from to (source starts ends steps) counts leasts greatests highs lows)
        (counts_in from to (sequence starts ends steps)) }
    ensures leaves_2 { Leaves leasts (totalling from to (source starts ends steps) counts leasts greatests highs lows)
        (leasts_in from to (sequence starts ends steps) leasts) }
    ensures leaves_3 { Leaves greatests (totalling from to (source starts ends steps) counts leasts greatests highs lows)
        (greatests_in from to (sequence starts ends steps) greatests) }
    ensures leaves_4 { Leaves highs (totalling from to (source starts ends steps) counts leasts greatests highs lows)
        (highs_in from to (sequence starts ends steps)) }
    ensures leaves_5 { Leaves lows (totalling from to (source starts ends steps) counts leasts greatests highs lows)
        (lows_in from to (sequence starts ends steps)) }
{
    let answer = totals(
        starts, ends, steps, from, to, counts, leasts, greatests, highs, lows,
    );
    flat_totalled(answer)
}
