// The stretch judge: a whole packed property and a whole trace give a verdict and a count.
#![tactic(auto)]

ghost use Rattle.std.specs.Prelude.{◌≡◌};
ghost use Rattle.meaning.specs.Numbers.{property_refusal};
ghost use Rattle.property.specs.Meant.{meant};
ghost use Rattle.stretch.specs.Judge.{judged_in, trace_judged, judge_of, one_number};
ghost use Rattle.stretch.specs.Version.{interface_version};

use outcomes::{Refusal, Verdict};
use property::Property;
use session_record::{Lent, rows_of};
use table::Steps;
use walk::{Stop, Went};

// "the count at most 16,383"
const MOST_COUNTED: usize = 16383;

// ANTHEGYRA_VERSION of include/anthegyra.h.
const VERSION: u64 = 4;

// Verdict and number of records taken.
#[derive(Clone, Copy)]
pub struct Judged {
    pub verdict: Verdict,
    pub count: usize,
}

// The trace, by a property that is taken.
fn trace_verdict(p: Property, trace: &[u8]) -> Result<Judged, Refusal>
    requires { property_refusal (meant p) ≡ 0 }
    ensures { judged_in result ≡ trace_judged p trace.now }
{
    let mut table = [0; 4257];
    table::fill(p, &mut table);
    let steps = Steps::new(p, &table);
    let s = session::fresh(p).session;
    let mut rows = rows_of(s);
    let mut lent = Lent {
        steps: &steps,
        rows: &mut rows,
        status: s.shared.status,
    };
    let Went {
        taken,
        stop,
        read,
        ..
    } = walk::records(&mut lent, trace, trace.len());
    match stop {
        Stop::Budget => Err(Refusal::TooShort),
        Stop::End => {
            if read < trace.len() {
                return Err(Refusal::Broken);
            }
            Ok(Judged {
                verdict: answers::standing(&lent),
                count: taken,
            })
        }
        Stop::Refused(refusal) => Err(refusal),
    }
}

// Judges a whole packed property, then a whole trace.
pub fn judge(property: &[u8], trace: &[u8]) -> Result<Judged, Refusal>
    ensures { judged_in result ≡ judge_of property.now trace.now }
{
    let p = property_form::read_property(property)?;
    if property_form::form_bytes(p.n) < property.len() {
        return Err(Refusal::Broken);
    }
    trace_verdict(p, trace)
}

// The same in one number, for C: refusal × 65,536 + verdict × 16,384 + count.
pub fn anthegyra_stretch_judge(property: &[u8], trace: &[u8]) -> u64
    ensures { result ≡ one_number (judge_of property.now trace.now) }
{
    match judge(property, trace) {
        Ok(judged) => {
            if MOST_COUNTED < judged.count {
                return u64::from(Refusal::NoRoom) * 65536;
            }
            u64::from(judged.verdict) * 16384 + judged.count as u64
        }
        Err(refusal) => u64::from(refusal) * 65536,
    }
}

// Which header the archive goes with.
pub fn anthegyra_version() -> u64
    ensures { result ≡ interface_version }
{
    VERSION
}
