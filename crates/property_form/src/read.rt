// The parts of the reader.
ghost use Rattle.std.specs.Prelude.{◌≡◌, false, ◌+◌, ◌*◌, ◌≤◌, ◌<◌, length};
ghost use Rattle.meaning.specs.Numbers.{given, first_of};
ghost use Rattle.outcomes.specs.Numbers.{refusal_in};
ghost use Rattle.property_form.specs.Form.{form_bits, form_size};
ghost use Rattle.property_form.specs.Read.{length_read, places, output_read, number_read, property_read, too_short, pad_broken};

use crate::form_bytes;
use outcomes::Refusal;

// The length field.
pub fn length_of(s: &[u8]) -> usize
    requires { 1 ≤ length s.now }
    ensures { (result ≡ length_read s.now) × (result < 64) }
{
    fields::field_at(s, 0, 6) as usize
}

// Refusal 7 or 8 of the bytes.
pub fn whole(s: &[u8]) -> Result<(), Refusal>
    ensures { refusal_in result ≡ first_of (given 7 (too_short s.now)) (given 8 (pad_broken s.now)) }
{
    if s.is_empty() {
        return Err(Refusal::TooShort);
    }
    let n = length_of(s);
    let size = form_bytes(n);
    if s.len() < size {
        return Err(Refusal::TooShort);
    }
    let end = 122 + 7 * n;
    if fields::field_at(s, end, 8 * size - end) != 0 {
        return Err(Refusal::Broken);
    }
    Ok(())
}

// Which actions are outputs.
fn outputs(s: &[u8], n: usize) -> [bool; 32]
    requires { (n ≤ 32) × (58 + 7 * n ≤ 8 * length s.now) }
    ensures { result ≡ places (output_read s.now) n false }
{
    let mut output = [false; 32];
    for i in 0..n {
        output[i] = fields::field_at(s, 58 + 7 * i, 1) == 1;
    }
    output
}

// The actions' numbers. One function with `outputs` would take the place, the width and a conversion, and be no plainer.
fn numbers(s: &[u8], n: usize) -> [u8; 32]
    requires { (n ≤ 32) × (58 + 7 * n ≤ 8 * length s.now) }
    ensures { result ≡ places (number_read s.now) n 0 }
{
    let mut number = [0; 32];
    for i in 0..n {
        number[i] = fields::field_at(s, 59 + 7 * i, 6) as u8;
    }
    number
}

// The property in the bytes, which have a whole form. The bits of the allowed outputs begin with output 0, which is the mask's last bit.
pub fn fields_of(s: &[u8], n: usize) -> property::Property
    requires { (n ≡ length_read s.now) × (n ≤ 32) × (form_bits n ≤ 8 * length s.now) }
    ensures { result ≡ property_read s.now }
{
    property::Property {
        n,
        output: outputs(s, n),
        number: numbers(s, n),
        allowed: fields::field_at(s, 58 + 7 * n, 64).reverse_bits(),
        lb: fields::field_at(s, 6, 26),
        ub: fields::field_at(s, 32, 26),
    }
}
