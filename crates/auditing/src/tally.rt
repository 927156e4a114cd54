// How many records of a window carry the field, and how many are filled: piece by piece, so that a window may have any length.
ghost use Rattle.std.specs.Prelude.{◌≡◌, ◌-◌, ◌≤◌, ◌<◌, length};
ghost use Rattle.meaning.specs.Refusals.{Gives, fine};
ghost use Rattle.meaning.specs.Column.{source_of};
ghost use Rattle.meaning.specs.Naming.{column_now, sequence, source};
ghost use Rattle.checked.specs.Says.{says_checked};
ghost use Rattle.profiles.specs.Profiles.{carrying_in, filled_in};
ghost use Rattle.auditing.specs.Audit.{window_of, numbers_of, counts_of, says_counts};

use checked::Checked;
use meaning::Refusal;
use profiles::{Listed, carrying, filled};
use reporting::asked::Asked;

#[derive(Clone, Copy)]
pub enum Counts {
    // carried, filled
    Both(u64, u64),
    Refused(Refusal),
}

// Whether the window is one: its empty part at its end is listed, which needs no room. Refused 16, 14, 1, 2, 3, 7, 15, 5.
pub fn window(starts: &[i64], ends: &[u64], steps: &[i16], asked: Asked) -> Checked
    ensures { says_checked result ≡ window_of asked (source starts ends steps) asked.end }
{
    let mut out = [0u64; 1];
    let end = asked.end;
    match filled(
        asked.profile,
        asked.count,
        starts,
        ends,
        steps,
        end,
        end,
        &mut out,
    ) {
        Listed::Refused(why) => Checked::Refused(why),
        Listed::Records(_) => Checked::Fine,
    }
}

// The end of the piece that begins at a record: 65,536 records on, or the window's end.
pub(crate) fn piece_end(at: u64, end: u64) -> u64
    requires { at < end }
    ensures { (at < result) × (result ≤ end) × (result - at ≤ 65536) }
{
    if end - at < 65536 { end } else { at + 65536 }
}

// How many of a piece carry the field.
fn carried_in(starts: &[i64], ends: &[u64], steps: &[i16], asked: Asked, at: u64, stop: u64) -> u64
    requires stop_value { window_of asked (source_of (column_now starts ends steps)) stop ≡ Gives fine }
    requires at_le_stop { (at ≤ stop) × (stop - at ≤ 65536) }
    ensures { result ≡ length (carrying_in asked.profile (sequence starts ends steps) at stop) }
{
    let mut out = [0u64; 65536];
    match carrying(
        asked.profile,
        asked.count,
        starts,
        ends,
        steps,
        at,
        stop,
        &mut out,
    ) {
        Listed::Records(n) => n,
        Listed::Refused(_) => 0,
    }
}

// How many of a piece are filled.
fn filled_in(starts: &[i64], ends: &[u64], steps: &[i16], asked: Asked, at: u64, stop: u64) -> u64
    requires stop_value { window_of asked (source_of (column_now starts ends steps)) stop ≡ Gives fine }
    requires at_le_stop { (at ≤ stop) × (stop - at ≤ 65536) }
    ensures { result ≡ length (filled_in asked.profile (sequence starts ends steps) at stop) }
{
    let mut out = [0u64; 65536];
    match filled(
        asked.profile,
        asked.count,
        starts,
        ends,
        steps,
        at,
        stop,
        &mut out,
    ) {
        Listed::Records(n) => n,
        Listed::Refused(_) => 0,
    }
}

// The sums over the pieces of a window.
fn sums(starts: &[i64], ends: &[u64], steps: &[i16], asked: Asked) -> Counts
    requires { window_of asked (source_of (column_now starts ends steps)) asked.end ≡ Gives fine }
    ensures { says_counts result ≡ Gives (numbers_of asked (sequence starts ends steps) asked.start asked.end) }
{
    let end = asked.end;
    let mut carried = 0u64;
    let mut filled = 0u64;
    let mut at = asked.start;
    while at < end {
        let stop = piece_end(at, end);
        carried += carried_in(starts, ends, steps, asked, at, stop);
        filled += filled_in(starts, ends, steps, asked, at, stop);
        at = stop;
    }
    Counts::Both(carried, filled)
}

// Both numbers of a window, or refused 16, 14, 1, 2, 3, 7, 15, 5.
pub fn tally(starts: &[i64], ends: &[u64], steps: &[i16], asked: Asked) -> Counts
    ensures { says_counts result ≡ counts_of asked (source starts ends steps) }
{
    match window(starts, ends, steps, asked) {
        Checked::Refused(why) => Counts::Refused(why),
        Checked::Fine => sums(starts, ends, steps, asked),
    }
}
