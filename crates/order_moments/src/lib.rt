// The earliest moments of an order.
#![tactic(auto)]

ghost use Rattle.std.specs.Prelude.{ℕ, ◌+◌, ◌-◌, ◌≤◌, ◌<◌, ◌≡◌, cond, [], length, get_or, pos, ◌-ℤ◌};
ghost use Rattle.laws.specs.Filled.{Filled};
ghost use Rattle.meaning.specs.Limits.{last_stamp, last_bound};
ghost use Rattle.meaning.specs.Numbers.{property_refusal};
ghost use Rattle.property.specs.Meant.{meant};
ghost use Rattle.judged_rest.specs.Lent.{lent};
ghost use Rattle.order_moments.specs.Moments.{last_moment, moment_at};

use property::Property;

// The lower end of a line's window, counted from UB before 0.
fn low(p: Property, output: bool, stamp: u64) -> u64
    requires { (property_refusal (meant p) ≡ 0) × (stamp ≤ last_stamp) }
    ensures { (result ≡ cond output stamp (stamp + p.lb + p.ub)) × (result ≤ last_moment) }
{
    if output { stamp } else { stamp + p.lb + p.ub }
}

// A moment counted from UB before 0, counted from 0.
fn moment(m: u64, ub: u64) -> i64
    requires { (m ≤ last_moment) × (ub ≤ last_bound) }
    ensures { result ≡ pos m -ℤ pos ub }
{
    m as i64 - ub as i64
}

// The earliest moments of an order.
pub fn earliest(p: Property, output: &[bool], stamp: &[u64], numbers: &[u64], moments: &mut [i64])
    requires p_value { (property_refusal (meant p) ≡ 0) × (length output.now ≡ length stamp.now) × ((i : ℕ) → get_or stamp.now i 0 ≤ last_stamp) }
    requires stamp_in_bounds { (length stamp.now ≤ length numbers.now) × (length stamp.now ≤ length moments.old) }
    requires by_index { (j : ℕ) → j < length stamp.now → (1 ≤ get_or numbers.now j 0) × (get_or numbers.now j 0 ≤ length stamp.now) }
    ensures { Filled (pos 0) 0 (length stamp.now) (moment_at p (lent output.now [] stamp.now) (λ j. get_or numbers.now j 0 - 1))
        moments.old moments.new }
{
    let mut m = 0;
    for j in 0..stamp.len() {
        let k = numbers[j] as usize - 1;
        m = m.max(low(p, output[k], stamp[k]));
        moments[j] = moment(m, p.ub);
    }
}
