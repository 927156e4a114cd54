// The static library of crate c_bitmap: the functions that C calls, each of which calls the one of that name there.
#![tactic(auto)]

ghost use Rattle.std.specs.Prelude.{◌≡◌};
ghost use Rattle.meaning.specs.Naming.{source, Leaves};
ghost use Rattle.exporting.specs.Export.{exported_bytes};
ghost use Rattle.exporting.specs.Says.{exporting};
ghost use Rattle.importing.specs.Import.{imported_column};
ghost use Rattle.importing.specs.Says.{importing};
ghost use Rattle.c_bitmap.specs.Bitmaps.{flat_imported, flat_exported};

use c_bitmap::{FlatExported, FlatImported};

// The column of the records that are present among count, into the first places of the three arrays; or refused 14, 11, 1, 10.
#[unsafe(no_mangle)]
pub extern "C" fn loftsplice_import(
    bytes: &[u8],
    count: u64,
    starts: &mut [i64],
    ends: &mut [u64],
    steps: &mut [i16],
) -> FlatImported
    ensures value { result ≡ flat_imported (importing bytes count starts ends steps) }
    ensures leaves { Leaves starts (importing bytes count starts ends steps) (imported_column bytes.now count).starts }
    ensures leaves_2 { Leaves ends (importing bytes count starts ends steps) (imported_column bytes.now count).ends }
    ensures leaves_3 { Leaves steps (importing bytes count starts ends steps) (imported_column bytes.now count).steps }
{
    c_bitmap::loftsplice_import(bytes, count, starts, ends, steps)
}

// The bitmap of a column's elements among count records; or refused 14, 1, 2, 3, 7, 15, 10.
#[unsafe(no_mangle)]
pub extern "C" fn loftsplice_export(
    starts: &[i64],
    ends: &[u64],
    steps: &[i16],
    count: u64,
    out: &mut [u8],
) -> FlatExported
    ensures value { result ≡ flat_exported (exporting (source starts ends steps) count out) }
    ensures leaves { Leaves out (exporting (source starts ends steps) count out) (exported_bytes (source starts ends steps) count) }
{
    c_bitmap::loftsplice_export(starts, ends, steps, count, out)
}
