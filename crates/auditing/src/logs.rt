// The filled logs of a window, as ranges: 13..19 are the seven logs from 13 to 19. A range goes on over the end of a piece.
ghost use Rattle.std.specs.Prelude.{◌≡◌, true, ◌+◌, ◌-◌, ◌≤◌, ◌<◌, length, take, drop, get_or};
ghost use Rattle.meaning.specs.Refusals.{Gives, fine};
ghost use Rattle.meaning.specs.Column.{source_of, sequence_of};
ghost use Rattle.meaning.specs.Naming.{column_now, sequence};
ghost use Rattle.profiles.specs.Profiles.{filled_in};
ghost use Rattle.auditing.specs.Audit.{window_of, logs_of, Range};

use crate::tally::piece_end;
use profiles::{Listed, filled};
use reporting::asked::Asked;
use reporting::rows;

// The range that may still grow, of n logs; how many logs were written before it; and the place in the buffer.
#[derive(Clone, Copy)]
pub struct Row {
    pub done: u64,
    pub first: u64,
    pub last: u64,
    pub n: u64,
    pub at: usize,
}

// Writes a range: these are the logs that follow those which were written before.
fn put_range(
    rt: &HostRuntime,
    starts: &[i64],
    ends: &[u64],
    steps: &[i16],
    asked: Asked,
    row: Row,
    form: usize,
    buf: &mut [u8; 65536],
) -> usize
    requires { Range (logs_of asked (sequence_of (column_now starts ends steps))) row }
{
    if row.n == 0 {
        return row.at;
    }
    rows::range(
        rt,
        form,
        row.done == 0,
        row.first,
        row.last,
        row.n,
        buf,
        row.at,
    )
}

// Whether a log goes on where a range of n logs ends.
fn goes_on(n: u64, last: u64, k: u64) -> bool
    ensures { result ≡ true → (0 < n) × (k ≡ last + 1) }
{
    if n < 1 {
        return false;
    }
    if k <= last {
        return false;
    }
    k - last == 1
}

// One log more: it goes on where the range ends, or begins one. There are no more than records before the piece's end.
fn one_more(
    rt: &HostRuntime,
    starts: &[i64],
    ends: &[u64],
    steps: &[i16],
    asked: Asked,
    row: Row,
    k: u64,
    stop: u64,
    form: usize,
    buf: &mut [u8; 65536],
) -> Row
    requires range { Range (logs_of asked (sequence_of (column_now starts ends steps))) row }
    requires n_in_bounds { row.done + row.n < length (logs_of asked (sequence_of (column_now starts ends steps))) }
    requires k_value { k ≡ get_or (logs_of asked (sequence_of (column_now starts ends steps))) (row.done + row.n) 0 }
    requires n_bound { row.done + row.n < stop }
    ensures range_2 { Range (logs_of asked (sequence starts ends steps)) result }
    ensures n_value { result.done + result.n ≡ row.done + row.n + 1 }
{
    if goes_on(row.n, row.last, k) {
        return Row {
            done: row.done,
            first: row.first,
            last: k,
            n: row.n + 1,
            at: row.at,
        };
    }
    let at = put_range(rt, starts, ends, steps, asked, row, form, buf);
    Row {
        done: row.done + row.n,
        first: k,
        last: k,
        n: 1,
        at,
    }
}

// The logs of a piece.
fn take_all(
    rt: &HostRuntime,
    starts: &[i64],
    ends: &[u64],
    steps: &[i16],
    asked: Asked,
    list: &[u64],
    before: Row,
    stop: u64,
    form: usize,
    buf: &mut [u8; 65536],
) -> Row
    requires range { Range (logs_of asked (sequence_of (column_now starts ends steps))) before }
    requires list_value { list.now ≡ take (length list.now) (drop (before.done + before.n) (logs_of asked (sequence_of (column_now starts ends steps)))) }
    requires list_bound { before.done + before.n + length list.now ≤ stop }
    ensures range_2 { Range (logs_of asked (sequence starts ends steps)) result }
    ensures n_value { result.done + result.n ≡ before.done + before.n + length list.now }
{
    let mut row = before;
    let mut i = 0;
    while i < list.len() {
        row = one_more(
            rt, starts, ends, steps, asked, row, list[i], stop, form, buf,
        );
        i += 1;
    }
    row
}

// A piece, listed.
fn piece(
    rt: &HostRuntime,
    starts: &[i64],
    ends: &[u64],
    steps: &[i16],
    asked: Asked,
    at: u64,
    stop: u64,
    row: Row,
    form: usize,
    buf: &mut [u8; 65536],
) -> Row
    requires stop_value { window_of asked (source_of (column_now starts ends steps)) stop ≡ Gives fine }
    requires start_le_at { (asked.start ≤ at) × (at ≤ stop) × (stop ≤ asked.end) × (stop - at ≤ 65536) }
    requires range { Range (logs_of asked (sequence_of (column_now starts ends steps))) row }
    requires n_value { row.done + row.n ≡ length (filled_in asked.profile (sequence_of (column_now starts ends steps)) asked.start at) }
    ensures range_2 { Range (logs_of asked (sequence starts ends steps)) result }
    ensures n_value_2 { result.done + result.n ≡ length (filled_in asked.profile (sequence starts ends steps) asked.start stop) }
{
    let mut out = [0u64; 65536];
    match filled(
        asked.profile,
        asked.count,
        starts,
        ends,
        steps,
        at,
        stop,
        &mut out,
    ) {
        Listed::Refused(_) => row,
        Listed::Records(n) => take_all(
            rt,
            starts,
            ends,
            steps,
            asked,
            &out[..n as usize],
            row,
            stop,
            form,
            buf,
        ),
    }
}

// The last range: with it all logs of the window are written.
fn put_last(
    rt: &HostRuntime,
    starts: &[i64],
    ends: &[u64],
    steps: &[i16],
    asked: Asked,
    row: Row,
    form: usize,
    buf: &mut [u8; 65536],
) -> usize
    requires range { Range (logs_of asked (sequence_of (column_now starts ends steps))) row }
    requires n_value { row.done + row.n ≡ length (logs_of asked (sequence_of (column_now starts ends steps))) }
{
    put_range(rt, starts, ends, steps, asked, row, form, buf)
}

// All of the window's, from a place of the buffer on.
pub(crate) fn ranges(
    rt: &HostRuntime,
    starts: &[i64],
    ends: &[u64],
    steps: &[i16],
    asked: Asked,
    form: usize,
    buf: &mut [u8; 65536],
    to: usize,
) -> usize
    requires { window_of asked (source_of (column_now starts ends steps)) asked.end ≡ Gives fine }
{
    let end = asked.end;
    let mut row = Row {
        done: 0,
        first: 0,
        last: 0,
        n: 0,
        at: to,
    };
    let mut at = asked.start;
    while at < end {
        let stop = piece_end(at, end);
        row = piece(rt, starts, ends, steps, asked, at, stop, row, form, buf);
        at = stop;
    }
    put_last(rt, starts, ends, steps, asked, row, form, buf)
}
