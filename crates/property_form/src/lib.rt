// The packed property: its reader, the rest behind it, and its writer.
#![tactic(auto)]

mod read;
mod write;

ghost use Rattle.std.specs.Prelude.{◌≡◌, ◌<◌};
ghost use Rattle.property.specs.Meant.{meant};
ghost use Rattle.fields.specs.Rest.{Rest};
ghost use Rattle.property_form.specs.Form.{form_size};
ghost use Rattle.property_form.specs.Read.{read, read_numbers, taken};
ghost use Rattle.property_form.specs.Write.{written, written_numbers, left};

use limits::MOST_ACTIONS;
use outcomes::Refusal;
use property::Property;

// The number of bytes of a packed property of n actions.
pub fn form_bytes(n: usize) -> usize
    requires { n < 64 }
    ensures { result ≡ form_size n }
{
    (122 + 7 * n).div_ceil(8)
}

// Takes one packed property from the front of the bytes.
pub fn read_property(s: &[u8]) -> Result<Property, Refusal>
    ensures { read_numbers result ≡ read s.now }
{
    read::whole(s)?;
    let n = read::length_of(s);
    if MOST_ACTIONS < n {
        return Err(Refusal::Length);
    }
    let p = read::fields_of(s, n);
    property::refused(p)?;
    Ok(p)
}

// The number of bytes that the reader takes.
fn taken_by(s: &[u8]) -> usize
    ensures { result ≡ taken s.now }
{
    match read_property(s) {
        Ok(p) => form_bytes(p.n),
        Err(_) => 0,
    }
}

// The bytes behind the packed property that the reader takes; all of them where it refuses.
pub fn property_rest(s: &[u8]) -> &[u8]
    ensures { Rest (taken s.now) s.entry result }
{
    &s[taken_by(s)..]
}

// Writes a packed property to the front of the buffer, and gives the number of bytes written.
pub fn write_property(p: Property, buf: &mut [u8]) -> Result<usize, Refusal>
    ensures { (written_numbers result ≡ written (meant p) buf.old) × (buf.new ≡ left (meant p) buf.old) }
{
    property::refused(p)?;
    let size = form_bytes(p.n);
    if buf.len() < size {
        return Err(Refusal::NoRoom);
    }
    fields::pack(&write::bits_of(p), size, buf);
    Ok(size)
}
