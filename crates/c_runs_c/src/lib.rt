// The static library of crate c_runs: the functions that C calls, each of which calls the one of that name there.
#![tactic(auto)]

ghost use Rattle.std.specs.Prelude.{◌≡◌, length};
ghost use Rattle.meaning.specs.Naming.{source};
ghost use Rattle.loftsplice.specs.Running.{next_run_of, next_run_out, seek_run_of, seek_run_out};
ghost use Rattle.c_runs.specs.Runs.{call_run, out_left};

use c_forms::scans::FlatScan;
use c_runs::FlatRan;

// As many nexts as the output has places, up to the first none; or refused 100, 1, 2, 3, 6.
#[unsafe(no_mangle)]
pub extern "C" fn loftsplice_scan_next_run(
    scan: FlatScan,
    starts: &[i64],
    ends: &[u64],
    steps: &[i16],
    out: &mut [i64],
) -> FlatRan
    ensures value { result ≡ call_run scan (next_run_of (source starts ends steps) (length out.old)) }
    ensures out_after { out.new ≡ out_left scan (next_run_out (source starts ends steps) out.old) out.old }
{
    c_runs::loftsplice_scan_next_run(scan, starts, ends, steps, out)
}

// A seek of each target in turn, in any order, up to the first none; or refused 100, 1, 2, 3, 6, 7, 10.
#[unsafe(no_mangle)]
pub extern "C" fn loftsplice_scan_seek_run(
    scan: FlatScan,
    starts: &[i64],
    ends: &[u64],
    steps: &[i16],
    targets: &[i64],
    out: &mut [i64],
) -> FlatRan
    ensures value { result ≡ call_run scan (seek_run_of (source starts ends steps) targets.now (length out.old)) }
    ensures out_after { out.new ≡ out_left scan (seek_run_out (source starts ends steps) targets.now out.old)
        out.old }
{
    c_runs::loftsplice_scan_seek_run(scan, starts, ends, steps, targets, out)
}
