// Fields of whole bits, most significant first: a field read from bytes; a field put into a list of bits; bits packed into bytes.
#![tactic(auto)]

ghost use Rattle.std.specs.Prelude.{◌≡◌, ◌++◌, ◌+◌, ◌*◌, ◌≤◌, ◌<◌, ◌^◌, length, drop};
ghost use Rattle.std.proofs.Math.Seq.{paste};
ghost use Rattle.fields.specs.Fields.{digit, bit, field, number, bits, at, packed, Bits};

// A byte as a number of 64 bits.
pub fn wide(b: u8) -> u64
    ensures { (result ≡ b) × (b < 256) }
{
    u64::from(b)
}

// Bit i of the bytes.
fn bit_at(s: &[u8], i: usize) -> u64
    requires { i < 8 * length s.now }
    ensures { result ≡ bit s.now i }
{
    (u64::from(s[i / 8]) >> (7 - i % 8)) % 2
}

// The field of `width` bits from bit `start` of the bytes.
pub fn field_at(s: &[u8], start: usize, width: usize) -> u64
    requires { (start + width ≤ 8 * length s.now) × (start + width < 2 ^ 64) × (width ≤ 64) }
    ensures { result ≡ field s.now start width }
{
    let mut v = 0;
    for i in start..start + width {
        v = 2 * v + bit_at(s, i);
    }
    v
}

// Digit k of a number.
pub fn digit_of(v: u64, k: usize) -> u8
    requires { k < 64 }
    ensures { result ≡ digit v k }
{
    ((v >> k) % 2) as u8
}

// The field `v` of `width` bits, put into a list of bits (one to an element) from place `start`.
pub fn put_field(list: &mut [u8], start: usize, width: usize, v: u64)
    requires { (start + width ≤ length list.old) × (width ≤ 64) }
    ensures { list.new ≡ paste list.old start (bits width v) width }
{
    for j in 0..width {
        list[start + j] = digit_of(v, width - 1 - j);
    }
}

// Byte j of a list of bits.
fn byte_of(list: &[u8], j: usize) -> u8
    requires { (8 * j + 8 ≤ length list.now) × Bits (at list.now) }
    ensures { result ≡ number (at list.now) (8 * j) 8 }
{
    let mut v = 0;
    for bit in &list[8 * j..8 * j + 8] {
        v = 2 * v + *bit;
    }
    v
}

// The first 8 × n of a list of bits, packed into the first n bytes of `buf`.
pub fn pack(list: &[u8], n: usize, buf: &mut [u8])
    requires { (8 * n ≤ length list.now) × (n ≤ length buf.old) × Bits (at list.now) }
    ensures { buf.new ≡ packed (at list.now) n ++ drop n buf.old }
{
    for (j, byte) in buf[..n].iter_mut().enumerate() {
        *byte = byte_of(list, j);
    }
}
