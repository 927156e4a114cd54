// audit FILE COUNT [START END]: which logs of a window are filled, how many, how many carry the field, and whether that is all of the window.
#![tactic(auto)]

ghost use Rattle.meaning.specs.Column.{source_of};
ghost use Rattle.meaning.specs.Naming.{column_now};
ghost use Rattle.auditing.specs.Audit.{Counted};

use crate::logs::ranges;
use crate::picture::picture;
use crate::tally::{Counts, tally};
use reporting::asked::Asked;
use reporting::{page, rows};
use telling::printing;
use words::arguments::{natural, signed};
use words::argv;
use words::numbers::Signed;
use words::places::{AFTER, FILE, FIRST, FORMAT, HTML, PROFILE, RECORDS};

mod logs;
mod picture;
pub mod tally;

// The profile that argument i has: 1 where none is given; 0, which is none, for any number but 1 and 2.
fn profile(rt: &HostRuntime, i: usize) -> u8 {
    if i == 0 {
        return 1;
    }
    match signed(rt, i) {
        Signed::Not => 0,
        Signed::Is(number) => {
            if number == 1 {
                return 1;
            }
            if number == 2 { 2 } else { 0 }
        }
    }
}

// What is asked: the whole, or the window that two arguments give.
fn asked(rt: &HostRuntime, places: &[usize; 16]) -> Asked {
    let count = natural(rt, places[RECORDS]);
    let number = profile(rt, places[PROFILE]);
    if places[FIRST] == 0 {
        return Asked {
            profile: number,
            count,
            start: 0,
            end: count,
        };
    }
    Asked {
        profile: number,
        count,
        start: natural(rt, places[FIRST]),
        end: natural(rt, places[AFTER]),
    }
}

// The report as a page, with the file's name.
fn put_page(
    rt: &HostRuntime,
    starts: &[i64],
    ends: &[u64],
    steps: &[i16],
    asked: Asked,
    file: usize,
    carried: u64,
    filled: u64,
)
    requires { Counted asked (source_of (column_now starts ends steps)) carried filled }
{
    let mut word = io::buffer();
    let n = argv::put_argument(rt, file, &mut word);
    let mut buf = io::large_buffer();
    let a = page::front(rt, asked, &word[..n], carried, filled, &mut buf, 0);
    let b = picture(rt, starts, ends, steps, asked, &mut buf, a);
    let c = page::middle(rt, filled, &mut buf, b);
    let d = ranges(rt, starts, ends, steps, asked, HTML, &mut buf, c);
    let e = page::back(rt, &mut buf, d);
    printing::written(rt, &buf, e);
}

fn put_rows(
    rt: &HostRuntime,
    starts: &[i64],
    ends: &[u64],
    steps: &[i16],
    asked: Asked,
    form: usize,
    carried: u64,
    filled: u64,
)
    requires { Counted asked (source_of (column_now starts ends steps)) carried filled }
{
    let mut buf = io::large_buffer();
    let a = rows::head(rt, form, asked, carried, filled, &mut buf, 0);
    let b = ranges(rt, starts, ends, steps, asked, form, &mut buf, a);
    let c = rows::tail(rt, form, &mut buf, b);
    printing::written(rt, &buf, c);
}

pub fn audit(rt: &HostRuntime, starts: &[i64], ends: &[u64], steps: &[i16], places: &[usize; 16]) {
    let asked = asked(rt, places);
    match tally(starts, ends, steps, asked) {
        Counts::Refused(why) => printing::refused(rt, why),
        Counts::Both(carried, filled) => {
            if places[FORMAT] == HTML {
                put_page(
                    rt,
                    starts,
                    ends,
                    steps,
                    asked,
                    places[FILE],
                    carried,
                    filled,
                );
                return;
            }
            put_rows(
                rt,
                starts,
                ends,
                steps,
                asked,
                places[FORMAT],
                carried,
                filled,
            );
        }
    }
}
