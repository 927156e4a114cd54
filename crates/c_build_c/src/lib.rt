// The static library of crate c_build: the functions that C calls, each of which calls the one of that name there.
#![tactic(auto)]

ghost use Rattle.std.specs.Prelude.{◌≡◌};
ghost use Rattle.meaning.specs.Naming.{Leaves};
ghost use Rattle.build.specs.Rule.{built_from};
ghost use Rattle.build.specs.Says.{building};
ghost use Rattle.c_build.specs.Building.{flat_built};

use c_build::FlatBuilt;

// The runs of a plain list, into the first places of the three arrays; or refused 1, 10.
#[unsafe(no_mangle)]
pub extern "C" fn loftsplice_build(
    values: &[i64],
    starts: &mut [i64],
    ends: &mut [u64],
    steps: &mut [i16],
) -> FlatBuilt
    ensures value { result ≡ flat_built (building values starts ends steps) }
    ensures leaves { Leaves starts (building values starts ends steps) (built_from values.now).starts }
    ensures leaves_2 { Leaves ends (building values starts ends steps) (built_from values.now).ends }
    ensures leaves_3 { Leaves steps (building values starts ends steps) (built_from values.now).steps }
{
    c_build::loftsplice_build(values, starts, ends, steps)
}
