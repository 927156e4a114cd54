// Document 02, request 1: runs built from plain lists, with room, into arrays that differ in length, and with a place too few. They stand in arrays
// whose places hold 7 before, and all of each is shown.
ghost use Rattle.std.specs.Prelude.{◌≤◌};

use build::{Built, build};
use shown::{text, unsigned};

fn told(rt: &HostRuntime, b: Built) {
    match b {
        Built::Runs(n) => {
            unsigned(rt, n as u64);
            text(rt, b" runs");
        }
        Built::Refused(why) => shown::refused(rt, why),
    }
}

// A list built into arrays of so many places, of the three that there are.
fn building(rt: &HostRuntime, values: &[i64], a: usize, b: usize, c: usize)
    requires { (a ≤ 3) × (b ≤ 3) × (c ≤ 3) }
{
    let mut starts = [7i64; 3];
    let mut ends = [7u64; 3];
    let mut steps = [7i16; 3];
    told(
        rt,
        build(values, &mut starts[..a], &mut ends[..b], &mut steps[..c]),
    );
    shown::places(rt, &starts, &ends, &steps);
}

// A list of two values, with room.
fn two(rt: &HostRuntime, first: i64, second: i64) {
    building(rt, &[first, second], 3, 3, 3);
}

fn short(rt: &HostRuntime) {
    text(rt, b"no value: ");
    building(rt, &[], 3, 3, 3);
    text(rt, b"no value, no places: ");
    building(rt, &[], 0, 0, 0);
    text(rt, b"one value: ");
    building(rt, &[-4], 3, 3, 3);
    text(rt, b"two equal: ");
    two(rt, 5, 5);
    text(rt, b"a falling pair: ");
    two(rt, 10, 5);
}

// Three runs: with room, and with a place too few in each array.
fn rooms(rt: &HostRuntime, values: &[i64]) {
    building(rt, values, 3, 3, 3);
    building(rt, values, 2, 3, 3);
    building(rt, values, 3, 2, 3);
    building(rt, values, 3, 3, 2);
}

// Two runs, in arrays that differ in length.
fn lengths(rt: &HostRuntime, values: &[i64]) {
    building(rt, values, 2, 3, 2);
    building(rt, values, 3, 2, 3);
    building(rt, values, 1, 2, 3);
}

fn longer(rt: &HostRuntime) {
    text(rt, b"nine values:\n");
    rooms(rt, &[10, 15, 20, 25, 30, 31, 40, 140, 240]);
    text(rt, b"three values:\n");
    lengths(rt, &[10, 15, 31]);
}

// The edges of a step, and of an i64: a difference that wraps is no step.
fn edges(rt: &HostRuntime) {
    text(rt, b"32767 apart: ");
    two(rt, 0, 32767);
    text(rt, b"32768 apart: ");
    two(rt, 0, 32768);
    text(rt, b"-32768 apart: ");
    two(rt, 0, -32768);
    text(rt, b"-32769 apart: ");
    two(rt, 0, -32769);
    text(rt, b"the least, then the greatest: ");
    two(rt, -9223372036854775808, 9223372036854775807);
    text(rt, b"the greatest, then the least: ");
    two(rt, 9223372036854775807, -9223372036854775808);
}

pub fn all(rt: &HostRuntime) {
    text(rt, b"== built\n");
    short(rt);
    longer(rt);
    edges(rt);
}
