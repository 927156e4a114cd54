// The C interface: runs of calls on a scan.
#![tactic(auto)]

ghost use Rattle.std.specs.Prelude.{◌≡◌, length};
ghost use Rattle.meaning.specs.Naming.{source};
ghost use Rattle.loftsplice.specs.Running.{tally_of, refuse_run, next_run_of, next_run_out, seek_run_of, seek_run_out};
ghost use Rattle.c_forms.specs.Flat.{form};
ghost use Rattle.c_forms.specs.Scan.{scan_of};
ghost use Rattle.c_runs.specs.Runs.{flat_ran, call_run, out_left};

use c_forms::scans::{FlatScan, flat_scan, is_scan, scan_of};
use loftsplice::refusal::number;
use loftsplice::running::{Counted, Ran, next_run};
use run_calls::seek_run;

// The scan after the run, a refusal's number or 0, and the number of values.
#[repr(C)]
#[derive(Clone, Copy)]
pub struct FlatRan {
    pub scan: FlatScan,
    pub refusal: u32,
    pub count: u64,
}

// A refused run hands back the scan that came in.
fn flat_ran(given: FlatScan, ran: Ran) -> FlatRan
    ensures { result ≡ flat_ran given (tally_of ran) }
{
    let scan = ran.scan;
    let counted = ran.counted;
    match counted {
        Counted::Values(count) => FlatRan {
            scan: flat_scan(scan),
            refusal: 0,
            count,
        },
        Counted::Refused(why) => FlatRan {
            scan: given,
            refusal: number(why),
            count: 0,
        },
    }
}

// The number of FORM, and the scan that came in.
fn bad_run(given: FlatScan) -> FlatRan
    ensures { result ≡ flat_ran given (refuse_run (scan_of given) form) }
{
    FlatRan {
        scan: given,
        refusal: 100,
        count: 0,
    }
}

// As many nexts as the output has places, up to the first none; or refused 100, 1, 2, 3, 6.
#[unsafe(no_mangle)]
pub extern "C" fn loftsplice_scan_next_run(
    scan: FlatScan,
    starts: &[i64],
    ends: &[u64],
    steps: &[i16],
    out: &mut [i64],
) -> FlatRan
    ensures value { result ≡ call_run scan (next_run_of (source starts ends steps) (length out.old)) }
    ensures out_after { out.new ≡ out_left scan (next_run_out (source starts ends steps) out.old) out.old }
{
    if is_scan(scan) {
        let ran = next_run(scan_of(scan), starts, ends, steps, out);
        flat_ran(scan, ran)
    } else {
        bad_run(scan)
    }
}

// A seek of each target in turn, in any order, up to the first none; or refused 100, 1, 2, 3, 6, 7, 10.
#[unsafe(no_mangle)]
pub extern "C" fn loftsplice_scan_seek_run(
    scan: FlatScan,
    starts: &[i64],
    ends: &[u64],
    steps: &[i16],
    targets: &[i64],
    out: &mut [i64],
) -> FlatRan
    ensures value { result ≡ call_run scan (seek_run_of (source starts ends steps) targets.now (length out.old)) }
    ensures out_after { out.new ≡ out_left scan (seek_run_out (source starts ends steps) targets.now out.old)
        out.old }
{
    if is_scan(scan) {
        let ran = seek_run(scan_of(scan), starts, ends, steps, targets, out);
        flat_ran(scan, ran)
    } else {
        bad_run(scan)
    }
}
