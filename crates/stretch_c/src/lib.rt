// The calls for C, as include/anthegyra.h declares them: what the same function of `stretch` gives.
#![tactic(auto)]

ghost use Rattle.std.specs.Prelude.{◌≡◌};
ghost use Rattle.stretch.specs.Judge.{judge_of, one_number};
ghost use Rattle.stretch.specs.Version.{interface_version};

// A whole packed property and a whole trace: refusal × 65,536 + verdict × 16,384 + count.
#[unsafe(no_mangle)]
pub extern "C" fn anthegyra_stretch_judge(property: &[u8], trace: &[u8]) -> u64
    ensures { result ≡ one_number (judge_of property.now trace.now) }
{
    stretch::anthegyra_stretch_judge(property, trace)
}

// Which header this archive goes with.
#[unsafe(no_mangle)]
pub extern "C" fn anthegyra_version() -> u64
    ensures { result ≡ interface_version }
{
    stretch::anthegyra_version()
}
