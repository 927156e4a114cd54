// The C interface: runs from a plain list.
#![tactic(auto)]

ghost use Rattle.std.specs.Prelude.{◌≡◌};
ghost use Rattle.meaning.specs.Naming.{Leaves};
ghost use Rattle.build.specs.Rule.{built_from};
ghost use Rattle.build.specs.Says.{says_built, building};
ghost use Rattle.c_build.specs.Building.{flat_built};

use build::{Built, build};
use loftsplice::refusal::number;

// A refusal's number or 0, and the run count.
#[repr(C)]
#[derive(Clone, Copy)]
pub struct FlatBuilt {
    pub refusal: u32,
    pub runs: u64,
}

fn flat_built(answer: Built) -> FlatBuilt
    ensures { result ≡ flat_built (says_built answer) }
{
    match answer {
        Built::Runs(runs) => FlatBuilt {
            refusal: 0,
            runs: runs as u64,
        },
        Built::Refused(why) => FlatBuilt {
            refusal: number(why),
            runs: 0,
        },
    }
}

// The runs of a plain list, into the first places of the three arrays; or refused 1, 10.
#[unsafe(no_mangle)]
pub extern "C" fn loftsplice_build(
    values: &[i64],
    starts: &mut [i64],
    ends: &mut [u64],
    steps: &mut [i16],
) -> FlatBuilt
    ensures value { result ≡ flat_built (building values starts ends steps) }
    ensures leaves { Leaves starts (building values starts ends steps) (built_from values.now).starts }
    ensures leaves_2 { Leaves ends (building values starts ends steps) (built_from values.now).ends }
    ensures leaves_3 { Leaves steps (building values starts ends steps) (built_from values.now).steps }
{
    let answer = build(values, starts, ends, steps);
    flat_built(answer)
}
