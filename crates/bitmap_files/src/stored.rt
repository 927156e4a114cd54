// A bitmap as a stored record: the column is imported, then written.
ghost use Rattle.std.specs.Prelude.{◌≡◌, length};
ghost use Rattle.meaning.specs.Naming.{Leaves};
ghost use Rattle.codec.specs.Record.{record_of};
ghost use Rattle.record.specs.Says.{says_written};
ghost use Rattle.importing.specs.Import.{imported_column};
ghost use Rattle.bitmap_files.specs.Stored.{stored_of};

use importing::{Imported, import};
use record::{Written, write};

// The record of the column of the records that are present, into the first places of an output; or refused 14, 11, 1, 10.
pub fn stored(bytes: &[u8], count: u64, out: &mut [u8]) -> Written
    ensures result_value { says_written result ≡ stored_of bytes.now count (length out.old) }
    ensures leaves { Leaves out (says_written result) (record_of (imported_column bytes.now count)) }
{
    let mut starts = [0i64; 4096];
    let mut ends = [0u64; 4096];
    let mut steps = [0i16; 4096];
    match import(bytes, count, &mut starts, &mut ends, &mut steps) {
        Imported::Refused(why) => Written::Refused(why),
        Imported::Runs(n, _) => write(&starts[..n], &ends[..n], &steps[..n], out),
    }
}
