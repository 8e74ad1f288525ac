// The parts of the writer.
ghost use Rattle.std.specs.Prelude.{◌≡◌, false, ◌++◌, ◌+◌, ◌-◌, ◌*◌, ◌≤◌, ◌<◌, length, get_or, replicate};
ghost use Rattle.std.proofs.Math.Seq.{paste};
ghost use Rattle.laws.specs.Places.{first};
ghost use Rattle.property.specs.Meant.{meant, action_of};
ghost use Rattle.fields.specs.Fields.{digit, run};
ghost use Rattle.property_form.specs.Form.{sequence_bits, property_bits, form_bits};

// The bits of the first n actions, put into a list of bits from place 58.
fn put_actions(list: &mut [u8], output: [bool; 32], number: [u8; 32], n: usize)
    requires { (n ≤ 32) × (58 + 7 * n ≤ length list.old) }
    ensures { list.new ≡ paste list.old 58 (sequence_bits (first (λ i. action_of (get_or output i false) (get_or number i 0)) n)) (7 * n) }
{
    for i in 0..n {
        fields::put_field(list, 58 + 7 * i, 1, u64::from(output[i]));
        fields::put_field(list, 59 + 7 * i, 6, u64::from(number[i]));
    }
}

// The bits of a set of outputs, put into a list of bits. They begin with output 0, which is the mask's last bit.
fn put_allowed(list: &mut [u8], start: usize, m: u64)
    requires { start + 64 ≤ length list.old }
    ensures { list.new ≡ paste list.old start (run (digit m) 0 64) 64 }
{
    for k in 0..64 {
        list[start + k] = fields::digit_of(m, k);
    }
}

// The bits of the form, and zero bits behind them.
pub fn bits_of(p: property::Property) -> [u8; 352]
    requires { p.n ≤ 32 }
    ensures { result ≡ property_bits (meant p) ++ replicate (352 - form_bits p.n) 0 }
{
    let mut list = [0; 352];
    fields::put_field(&mut list, 0, 6, p.n as u64);
    fields::put_field(&mut list, 6, 26, p.lb);
    fields::put_field(&mut list, 32, 26, p.ub);
    put_actions(&mut list, p.output, p.number, p.n);
    put_allowed(&mut list, 58 + 7 * p.n, p.allowed);
    list
}
