// The interval filter: the Rust's filter_interval.rs. It holds its scan by value.
#![tactic(auto)]

ghost use Rattle.std.specs.Prelude.{◌≡◌};
ghost use Rattle.meaning.specs.Naming.{source};
ghost use Rattle.loftsplice.specs.declared.scan.Move.TheVariants.{Next, Seek};
ghost use Rattle.loftsplice.specs.Scan.{says_answer};
ghost use Rattle.filter_interval.specs.Filter.{says_fitted, sifting_of, handing, fit_of, call_of, filter_current_of, filter_reset_of};
ghost use Rattle.filter_interval.specs.Inner.{none_or_refused};

pub mod sifting;

use crate::sifting::sift;
use bounds::{Bounds, Inputs, Limit, Mode, Side, Variables, fold};
use loftsplice::scan::{Move, Scan};
use meaning::{Answer, Refusal};

// Before, Within (with the upper bound that it keeps), After.
#[derive(Clone, Copy)]
pub enum FilterState {
    Before,
    Within(Limit),
    After,
}

// A filter: its scan, how it folds upper bounds, the constant bounds folded, its state.
#[derive(Clone, Copy)]
pub struct Filter {
    pub scan: Scan,
    pub mode: Mode,
    pub lower: Limit,
    pub upper: Limit,
    pub state: FilterState,
}

// The filter handed back with the answer.
#[derive(Clone, Copy)]
pub struct Sifted {
    pub filter: Filter,
    pub answer: Answer,
}

// A new filter, or a refusal.
#[derive(Clone, Copy)]
pub enum Fitted {
    Ready(Filter),
    Refused(Refusal),
}

// A refusal stays one; what is given becomes none.
fn none_or_refused(answer: Answer) -> Answer
    ensures { says_answer result ≡ none_or_refused (says_answer answer) }
{
    match answer {
        Answer::Value(_) => Answer::None,
        Answer::None => Answer::None,
        Answer::Refused(why) => Answer::Refused(why),
    }
}

impl Filter {
    // "Constant bounds are folded when a filter is made", in the mode that is "chosen when a filter is made"; or refused 8.
    pub fn new(scan: Scan, mode: Mode, lower: Bounds, upper: Bounds) -> Fitted
        ensures { says_fitted result ≡ fit_of scan mode lower upper }
    {
        let lows = lower.count;
        let ups = upper.count;
        if 16 < lows {
            return Fitted::Refused(Refusal::Bounds);
        }
        if 16 < ups {
            return Fitted::Refused(Refusal::Bounds);
        }
        let low = fold(Side::Lower, lower);
        let up = fold(Side::Upper(mode), upper);
        Fitted::Ready(Filter {
            scan: scan,
            mode: mode,
            lower: low,
            upper: up,
            state: FilterState::Before,
        })
    }

    // The next element that meets the bounds, or none; or refused 1, 2, 3, 6, 8, 7, 9.
    pub fn next(
        self,
        starts: &[i64],
        ends: &[u64],
        steps: &[i16],
        lower: Variables,
        upper: Variables,
        inputs: Inputs,
    ) -> Sifted
        ensures { sifting_of result ≡ call_of (source starts ends steps) (handing Next lower upper inputs) self }
    {
        let step = Move::Next;
        sift(self, starts, ends, steps, step, lower, upper, inputs)
    }

    // The first element from here on that is not below the target and meets the bounds, or none; or refused 1, 2, 3, 6, 8, 7, 9.
    pub fn seek(
        self,
        starts: &[i64],
        ends: &[u64],
        steps: &[i16],
        target: i64,
        lower: Variables,
        upper: Variables,
        inputs: Inputs,
    ) -> Sifted
        ensures { sifting_of result ≡ call_of (source starts ends steps) (handing (Seek target) lower upper inputs) self }
    {
        let step = Move::Seek(target);
        sift(self, starts, ends, steps, step, lower, upper, inputs)
    }

    // What its scan carries when Within, else none; or refused 6, in any state of the filter, where the scan's `current` is.
    pub fn current(self) -> Answer
        ensures { says_answer result ≡ filter_current_of self }
    {
        let scan = self.scan;
        let state = self.state;
        let answer = scan.current();
        match state {
            FilterState::Before => none_or_refused(answer),
            FilterState::Within(_) => answer,
            FilterState::After => none_or_refused(answer),
        }
    }

    // "reset makes the filter Before and does not touch the scan"
    pub fn reset(self) -> Filter
        ensures { result ≡ filter_reset_of self }
    {
        let scan = self.scan;
        let mode = self.mode;
        let lower = self.lower;
        let upper = self.upper;
        Filter {
            scan: scan,
            mode: mode,
            lower: lower,
            upper: upper,
            state: FilterState::Before,
        }
    }
}
