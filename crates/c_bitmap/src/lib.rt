// The C interface: presence bitmaps.
#![tactic(auto)]

ghost use Rattle.std.specs.Prelude.{◌≡◌};
ghost use Rattle.meaning.specs.Naming.{source, Leaves};
ghost use Rattle.exporting.specs.Export.{exported_bytes};
ghost use Rattle.exporting.specs.Says.{says_exported, exporting};
ghost use Rattle.importing.specs.Import.{imported_column};
ghost use Rattle.importing.specs.Says.{says_imported, importing};
ghost use Rattle.c_bitmap.specs.Bitmaps.{flat_imported, flat_exported};

use exporting::{Exported, export};
use importing::{Imported, import};
use loftsplice::refusal::number;

// A refusal's number or 0, the run count, and how many records are present.
#[repr(C)]
#[derive(Clone, Copy)]
pub struct FlatImported {
    pub refusal: u32,
    pub runs: u64,
    pub ones: u64,
}

// A refusal's number or 0, and the bytes written.
#[repr(C)]
#[derive(Clone, Copy)]
pub struct FlatExported {
    pub refusal: u32,
    pub bytes: u64,
}

fn flat_imported(answer: Imported) -> FlatImported
    ensures { result ≡ flat_imported (says_imported answer) }
{
    match answer {
        Imported::Runs(runs, ones) => FlatImported {
            refusal: 0,
            runs: runs as u64,
            ones: ones as u64,
        },
        Imported::Refused(why) => FlatImported {
            refusal: number(why),
            runs: 0,
            ones: 0,
        },
    }
}

fn flat_exported(answer: Exported) -> FlatExported
    ensures { result ≡ flat_exported (says_exported answer) }
{
    match answer {
        Exported::Bytes(bytes) => FlatExported {
            refusal: 0,
            bytes: bytes as u64,
        },
        Exported::Refused(why) => FlatExported {
            refusal: number(why),
            bytes: 0,
        },
    }
}

// The column of the records that are present among count, into the first places of the three arrays; or refused 14, 11, 1, 10.
#[unsafe(no_mangle)]
pub extern "C" fn loftsplice_import(
    bytes: &[u8],
    count: u64,
    starts: &mut [i64],
    ends: &mut [u64],
    steps: &mut [i16],
) -> FlatImported
    ensures value { result ≡ flat_imported (importing bytes count starts ends steps) }
    ensures leaves { Leaves starts (importing bytes count starts ends steps) (imported_column bytes.now count).starts }
    ensures leaves_2 { Leaves ends (importing bytes count starts ends steps) (imported_column bytes.now count).ends }
    ensures leaves_3 { Leaves steps (importing bytes count starts ends steps) (imported_column bytes.now count).steps }
{
    let answer = import(bytes, count, starts, ends, steps);
    flat_imported(answer)
}

// The bitmap of a column's elements among count records; or refused 14, 1, 2, 3, 7, 15, 10.
#[unsafe(no_mangle)]
pub extern "C" fn loftsplice_export(
    starts: &[i64],
    ends: &[u64],
    steps: &[i16],
    count: u64,
    out: &mut [u8],
) -> FlatExported
    ensures value { result ≡ flat_exported (exporting (source starts ends steps) count out) }
    ensures leaves { Leaves out (exporting (source starts ends steps) count out) (exported_bytes (source starts ends steps) count) }
{
    let answer = export(starts, ends, steps, count, out);
    flat_exported(answer)
}
