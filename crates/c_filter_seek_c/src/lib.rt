// The static library of crate c_filter_seek: the functions that C calls, each of which calls the one of that name there.
#![tactic(auto)]

ghost use Rattle.std.specs.Prelude.{◌≡◌};
ghost use Rattle.meaning.specs.Naming.{source};
ghost use Rattle.loftsplice.specs.declared.scan.Move.TheVariants.{Seek};
ghost use Rattle.c_filter.specs.Filter.{call_filter};
ghost use Rattle.c_filter.specs.Naming.{lists};

use c_filter::flat::{FlatFilter, FlatSifted};

// The first element from here on that is not below the target and meets the bounds, or none; or refused 100, 1, 2, 3, 6, 8, 7, 9.
#[unsafe(no_mangle)]
pub extern "C" fn loftsplice_filter_seek(
    filter: FlatFilter,
    starts: &[i64],
    ends: &[u64],
    steps: &[i16],
    target: i64,
    lows: &[u64],
    lowkinds: &[u8],
    ups: &[u64],
    upkinds: &[u8],
    values: &[i64],
    found: &[u8],
) -> FlatSifted
    ensures { result ≡ call_filter (source starts ends steps) (Seek target) (lists lows lowkinds ups upkinds values found) filter }
{
    c_filter_seek::loftsplice_filter_seek(
        filter, starts, ends, steps, target, lows, lowkinds, ups, upkinds, values, found,
    )
}
