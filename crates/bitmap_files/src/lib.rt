// import BITMAP COUNT OUT and export FILE COUNT OUT: the column of a bitmap as a stored record, and the bitmap of a column. Both go to standard
// output, whole or not at all; the wrapper makes the file OUT of it.
#![tactic(auto)]

ghost use Rattle.std.specs.Prelude.{◌≡◌};
ghost use Rattle.meaning.specs.Column.{source_of};
ghost use Rattle.meaning.specs.Naming.{column_now};
ghost use Rattle.codec.specs.Record.{record_of};
ghost use Rattle.importing.specs.Import.{imported_column};
ghost use Rattle.exporting.specs.Export.{exported_bytes};

use crate::stored::stored;
use asking::opening;
use asking::opening::Source;
use exporting::{Exported, export};
use record::Written;
use telling::printing;
use words::arguments::natural;
use words::places::{FILE, RECORDS};

pub mod stored;

// Writes a record: that of the column of these records, and nothing else.
fn put_record(rt: &HostRuntime, made: &[u8], bytes: &[u8], count: u64)
    requires { made.now ≡ record_of (imported_column bytes.now count) }
{
    printing::text(rt, made);
}

// The largest record has 57,350 bytes.
fn from_bitmap(rt: &HostRuntime, bytes: &[u8], count: u64) {
    let mut out = [0u8; 57350];
    match stored(bytes, count, &mut out) {
        Written::Refused(why) => printing::refused(rt, why),
        Written::Bytes(n) => put_record(rt, &out[..n], bytes, count),
    }
}

// A bitmap of as many records as there may be has 65,536 bytes; what a file has beyond is not read. A read that ends early may have failed, as that
// of a folder does: one more tells.
fn from_file(rt: &HostRuntime, source: &mut Source, count: u64) {
    let mut bytes = [0u8; 65536];
    let n = opening::read_full(rt, source, &mut bytes);
    let mut next = [0u8; 1];
    if opening::read_some(rt, source, &mut next).is_none() {
        return;
    }
    from_bitmap(rt, &bytes[..n], count);
}

pub fn import_file(rt: &HostRuntime, places: &[usize; 16]) {
    if let Some(mut source) = opening::open(rt, places[FILE], false) {
        from_file(rt, &mut source, natural(rt, places[RECORDS]));
    }
}

// Writes a bitmap: that of this column among so many records, and nothing else.
fn put_bitmap(
    rt: &HostRuntime,
    bitmap: &[u8],
    starts: &[i64],
    ends: &[u64],
    steps: &[i16],
    count: u64,
)
    requires { bitmap.now ≡ exported_bytes (source_of (column_now starts ends steps)) count }
{
    printing::text(rt, bitmap);
}

pub fn export_column(rt: &HostRuntime, starts: &[i64], ends: &[u64], steps: &[i16], count: u64) {
    let mut out = [0u8; 65536];
    match export(starts, ends, steps, count, &mut out) {
        Exported::Refused(why) => printing::refused(rt, why),
        Exported::Bytes(n) => put_bitmap(rt, &out[..n], starts, ends, steps, count),
    }
}
