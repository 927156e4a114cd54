// The C interface: the batch listing.
#![tactic(auto)]

ghost use Rattle.std.specs.Prelude.{◌≡◌};
ghost use Rattle.meaning.specs.Naming.{source};
ghost use Rattle.loftsplice.specs.Listing.{says_listed};
ghost use Rattle.c_listing.specs.Listing.{flat_listed};
ghost use Rattle.c_listing.specs.Naming.{request, list_says, values_left, counts_left};

use c_forms::limits::{are_bounds, bounds_of, mode_of};
use loftsplice::listing::{Listed, list};
use loftsplice::refusal::number;

// A refusal's number or 0, and the number of values written.
#[repr(C)]
#[derive(Clone, Copy)]
pub struct FlatListed {
    pub refusal: u32,
    pub sum: u64,
}

fn flat_listed(listed: Listed) -> FlatListed
    ensures { result ≡ flat_listed (says_listed listed) }
{
    match listed {
        Listed::Sum(sum) => FlatListed { refusal: 0, sum },
        Listed::Refused(why) => FlatListed {
            refusal: number(why),
            sum: 0,
        },
    }
}

// The values of each window that meet the bounds, window by window, and the number of each window's; or refused 100, 1, 2, 3, 8, 5, 7, 10.
#[unsafe(no_mangle)]
pub extern "C" fn loftsplice_list(
    starts: &[i64],
    ends: &[u64],
    steps: &[i16],
    from: &[u64],
    to: &[u64],
    mode: u32,
    lows: &[i64],
    lowkinds: &[u8],
    ups: &[i64],
    upkinds: &[u8],
    out: &mut [i64],
    counts: &mut [u64],
) -> FlatListed
    ensures value { result ≡ flat_listed (list_says (source starts ends steps) (request from to mode lows lowkinds ups upkinds) out counts) }
    ensures out_after { out.new ≡ values_left (source starts ends steps) (request from to mode lows lowkinds ups upkinds) out counts }
    ensures counts_after { counts.new ≡ counts_left (source starts ends steps) (request from to mode lows lowkinds ups upkinds) out counts }
{
    if are_bounds(mode, lows.len(), lowkinds, ups.len(), upkinds) {
        let lower = bounds_of(lows, lowkinds);
        let upper = bounds_of(ups, upkinds);
        let wins = mode_of(mode);
        let listed = list(
            starts, ends, steps, from, to, wins, lower, upper, out, counts,
        );
        flat_listed(listed)
    } else {
        FlatListed {
            refusal: 100,
            sum: 0,
        }
    }
}
