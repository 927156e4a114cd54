// The static library of crate c_totals: the functions that C calls, each of which calls the one of that name there.
#![tactic(auto)]

ghost use Rattle.std.specs.Prelude.{◌≡◌};
ghost use Rattle.meaning.specs.Naming.{sequence, source, Leaves};
ghost use Rattle.totals.specs.Says.{totalling, counts_in, leasts_in, greatests_in, highs_in, lows_in};
ghost use Rattle.c_totals.specs.Totals.{flat_totalled};

use c_totals::FlatTotalled;

// The totals of each window from..to, into the first places of five arrays, and over all windows; or refused 1, 2, 3, 8, 5, 18, 10.
#[unsafe(no_mangle)]
pub extern "C" fn loftsplice_totals(
    starts: &[i64],
    ends: &[u64],
    steps: &[i16],
    from: &[u64],
    to: &[u64],
    counts: &mut [u64],
    leasts: &mut [i64],
    greatests: &mut [i64],
    highs: &mut [i64],
    lows: &mut [u64],
) -> FlatTotalled
    ensures value { result ≡ flat_totalled (totalling from to (source starts ends steps) counts leasts greatests highs lows) }
    ensures leaves { Leaves counts (totalling from to (source starts ends steps) counts leasts greatests highs lows)
        (counts_in from to (sequence starts ends steps)) }
    ensures leaves_2 { Leaves leasts (totalling from to (source starts ends steps) counts leasts greatests highs lows)
        (leasts_in from to (sequence starts ends steps) leasts) }
    ensures leaves_3 { Leaves greatests (totalling from to (source starts ends steps) counts leasts greatests highs lows)
        (greatests_in from to (sequence starts ends steps) greatests) }
    ensures leaves_4 { Leaves highs (totalling from to (source starts ends steps) counts leasts greatests highs lows)
        (highs_in from to (sequence starts ends steps)) }
    ensures leaves_5 { Leaves lows (totalling from to (source starts ends steps) counts leasts greatests highs lows)
        (lows_in from to (sequence starts ends steps)) }
{
    c_totals::loftsplice_totals(
        starts, ends, steps, from, to, counts, leasts, greatests, highs, lows,
    )
}
