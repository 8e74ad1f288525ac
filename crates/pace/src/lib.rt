// For the benchmark alone: the walk by value, called from C as often as is asked.
#![tactic(auto)]

ghost use Rattle.std.specs.Prelude.{◌≡◌};
ghost use Rattle.pace.specs.Pace.{paced};

// Walks over the front of `trace` on a fresh session, `times` times, and gives the number of records that the last walk took.
#[unsafe(no_mangle)]
pub extern "C" fn anthegyra_pace_walk(
    property: &[u8],
    trace: &[u8],
    budget: usize,
    times: usize,
) -> usize
    ensures { result ≡ paced property.now trace.now budget times }
{
    let Ok(p) = property_form::read_property(property) else {
        return 0;
    };
    let s = session::fresh(p).session;
    let mut taken = 0;
    for _ in 0..times {
        taken = walk::walk(s, trace, budget).taken;
    }
    taken
}
