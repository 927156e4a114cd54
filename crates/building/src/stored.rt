// Numbers as a stored record: the column is built, then written.
ghost use Rattle.std.specs.Prelude.{◌≡◌, length};
ghost use Rattle.meaning.specs.Naming.{Leaves};
ghost use Rattle.codec.specs.Record.{record_of};
ghost use Rattle.record.specs.Says.{says_written};
ghost use Rattle.build.specs.Rule.{built_from};
ghost use Rattle.building.specs.Stored.{stored_of};

use build::{Built, build};
use record::{Written, write};

// The record of the runs of a list, into the first places of an output; or refused 1, 10.
pub fn stored(values: &[i64], out: &mut [u8]) -> Written
    ensures result_value { says_written result ≡ stored_of values.now (length out.old) }
    ensures leaves { Leaves out (says_written result) (record_of (built_from values.now)) }
{
    let mut starts = [0i64; 4096];
    let mut ends = [0u64; 4096];
    let mut steps = [0i16; 4096];
    match build(values, &mut starts, &mut ends, &mut steps) {
        Built::Refused(why) => Written::Refused(why),
        Built::Runs(n) => write(&starts[..n], &ends[..n], &steps[..n], out),
    }
}
