// The static library of crate c_listing: the functions that C calls, each of which calls the one of that name there.
#![tactic(auto)]

ghost use Rattle.std.specs.Prelude.{◌≡◌};
ghost use Rattle.meaning.specs.Naming.{source};
ghost use Rattle.c_listing.specs.Listing.{flat_listed};
ghost use Rattle.c_listing.specs.Naming.{request, list_says, values_left, counts_left};

use c_listing::FlatListed;

// The values of each window that meet the bounds, window by window, and the number of each window's; or refused 100, 1, 2, 3, 8, 5, 7, 10.
#[unsafe(no_mangle)]
pub extern "C" fn loftsplice_list(
    starts: &[i64],
    ends: &[u64],
    steps: &[i16],
    from: &[u64],
    to: &[u64],
    mode: u32,
    lows: &[i64],
    lowkinds: &[u8],
    ups: &[i64],
    upkinds: &[u8],
    out: &mut [i64],
    counts: &mut [u64],
) -> FlatListed
    ensures value { result ≡ flat_listed (list_says (source starts ends steps) (request from to mode lows lowkinds ups upkinds) out counts) }
    ensures out_after { out.new ≡ values_left (source starts ends steps) (request from to mode lows lowkinds ups upkinds) out counts }
    ensures counts_after { counts.new ≡ counts_left (source starts ends steps) (request from to mode lows lowkinds ups upkinds) out counts }
{
    c_listing::loftsplice_list(
        starts, ends, steps, from, to, mode, lows, lowkinds, ups, upkinds, out, counts,
    )
}
