// Document 02, request 7: which records carry a field and which are filled, by both profiles. The places of an output hold 77 before, and all are shown.
use profiles::{Field, Listed, carries, carrying, filled};
use shown::{text, unsigned};

fn told(rt: &HostRuntime, answer: Field) {
    match answer {
        Field::Yes => text(rt, b" yes"),
        Field::No => text(rt, b" no"),
        Field::Refused(why) => {
            text(rt, b" ");
            shown::refused(rt, why);
        }
    }
}

fn wrote(rt: &HostRuntime, answer: Listed) {
    match answer {
        Listed::Records(n) => {
            unsigned(rt, n);
            text(rt, b" records:");
        }
        Listed::Refused(why) => {
            shown::refused(rt, why);
            text(rt, b":");
        }
    }
}

fn numbers(rt: &HostRuntime, out: &[u64; 16]) {
    let mut i = 0;
    while i < 16 {
        text(rt, b" ");
        unsigned(rt, out[i]);
        i += 1;
    }
    text(rt, b"\n");
}

// Both lists of a window.
fn lists(
    rt: &HostRuntime,
    profile: u8,
    count: u64,
    starts: &[i64],
    ends: &[u64],
    steps: &[i16],
    start: u64,
    end: u64,
) {
    let mut out = [77u64; 16];
    text(rt, b"carrying, ");
    wrote(
        rt,
        carrying(profile, count, starts, ends, steps, start, end, &mut out),
    );
    numbers(rt, &out);
    let mut rest = [77u64; 16];
    text(rt, b"filled, ");
    wrote(
        rt,
        filled(profile, count, starts, ends, steps, start, end, &mut rest),
    );
    numbers(rt, &rest);
}

// Each record beside a run's edge.
fn ones(rt: &HostRuntime, profile: u8, count: u64, starts: &[i64], ends: &[u64], steps: &[i16]) {
    text(rt, b"0, 3, 7, 20, 21, 22:");
    told(rt, carries(profile, count, starts, ends, steps, 0));
    told(rt, carries(profile, count, starts, ends, steps, 3));
    told(rt, carries(profile, count, starts, ends, steps, 7));
    told(rt, carries(profile, count, starts, ends, steps, 20));
    told(rt, carries(profile, count, starts, ends, steps, 21));
    told(rt, carries(profile, count, starts, ends, steps, 22));
    text(rt, b"\n");
}

// 3 4 5 6, 8 10 12, 20: gaps before, between, within and after runs.
fn windows(rt: &HostRuntime, profile: u8) {
    let starts = [3i64, 8, 20];
    let ends = [4u64, 7, 8];
    let steps = [1i16, 2, -9];
    text(rt, b"profile ");
    unsigned(rt, profile as u64);
    text(rt, b"\n");
    ones(rt, profile, 22, &starts, &ends, &steps);
    lists(rt, profile, 22, &starts, &ends, &steps, 0, 22);
    lists(rt, profile, 22, &starts, &ends, &steps, 5, 11);
    lists(rt, profile, 22, &starts, &ends, &steps, 9, 9);
    lists(rt, profile, 22, &starts, &ends, &steps, 30, 22);
    lists(rt, profile, 22, &starts, &ends, &steps, 0, 23);
    lists(rt, profile, 20, &starts, &ends, &steps, 0, 21);
    lists(rt, profile, 4294967296, &starts, &ends, &steps, 0, 1);
    lists(
        rt, profile, 4294967295, &starts, &ends, &steps, 4294967290, 4294967295,
    );
}

fn refused(rt: &HostRuntime) {
    text(rt, b"does not rise\n");
    lists(rt, 2, 5, &[-1, 7, 7], &[1, 2, 3], &[0, 0, 0], 0, 9);
    text(rt, b"past an i64\n");
    lists(rt, 1, 5, &[9223372036854775807], &[2], &[1], 0, 9);
    text(rt, b"ends that stand\n");
    lists(rt, 2, 5, &[9, 9], &[1, 1], &[0, 0], 0, 9);
    text(rt, b"no start\n");
    lists(rt, 1, 5, &[], &[1], &[0], 0, 9);
    text(rt, b"17 places\n");
    lists(rt, 1, 50, &[17], &[17], &[1], 0, 34);
}

pub fn all(rt: &HostRuntime) {
    text(rt, b"== profiled\n");
    windows(rt, 1);
    windows(rt, 2);
    windows(rt, 3);
    text(rt, b"no run\n");
    lists(rt, 1, 5, &[], &[], &[], 1, 4);
    lists(rt, 2, 5, &[], &[], &[], 1, 4);
    refused(rt);
}
