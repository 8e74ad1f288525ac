// What calls print: numbers, lists of them and bytes.
use arrayvec::ArrayString;
use std::fmt::{Display, Formatter};
use std::{fmt, str};

// What a call prints is made whole on a page, and then written at once. The longest answer is that of `Y` with its four lists of 512 places.
pub type Page = ArrayString<32768>;

// Numbers, with a space before each.
#[derive(Clone, Copy)]
pub struct Numbers<'a, T>(pub &'a [T]);

impl<T: Display> Display for Numbers<'_, T> {
    fn fmt<W: fmt::Write>(&self, f: &mut Formatter<W>) -> fmt::Result {
        for number in self.0 {
            write!(f, " {number}")?;
        }
        Ok(())
    }
}

pub fn wide_flag(flag: bool) -> u64 {
    u64::from(flag)
}

// Flags, and bytes, as words, with zeros behind them.
pub fn wide_flags(flags: &[bool]) -> [u64; 65] {
    let mut words = [0; 65];
    for (word, flag) in words.iter_mut().zip(flags) {
        *word = wide_flag(*flag);
    }
    words
}

pub fn wide_bytes(bytes: &[u8]) -> [u64; 65] {
    let mut words = [0; 65];
    for (word, byte) in words.iter_mut().zip(bytes) {
        *word = u64::from(*byte);
    }
    words
}

// The places up to the last that is not 0.
pub fn used(list: &[u64]) -> Numbers<'_, u64> {
    match list.iter().rposition(|number| *number != 0) {
        Some(last) => Numbers(&list[..=last]),
        None => Numbers(&[]),
    }
}

// Bytes are put into digits, and the digits are written, so many bytes at a time.
const PART: usize = 64;

// Bytes in hex, behind their number and a colon.
#[derive(Clone, Copy)]
pub struct Hex<'a>(pub &'a [u8]);

impl Display for Hex<'_> {
    fn fmt<W: fmt::Write>(&self, f: &mut Formatter<W>) -> fmt::Result {
        let bytes = self.0;
        write!(f, "{}:", bytes.len())?;
        for part in bytes.chunks(PART) {
            let mut room = [0; 2 * PART];
            let digits = &mut room[..2 * part.len()];
            hex::encode_to_slice(part, digits).map_err(|_| fmt::Error)?;
            f.write_str(str::from_utf8(digits).map_err(|_| fmt::Error)?)?;
        }
        Ok(())
    }
}

// A rest: its length, and its first 16 bytes.
#[derive(Clone, Copy)]
pub struct Rest<'a>(pub &'a [u8]);

impl Display for Rest<'_> {
    fn fmt<W: fmt::Write>(&self, f: &mut Formatter<W>) -> fmt::Result {
        let rest = self.0;
        let first = &rest[..rest.len().min(16)];
        write!(f, "{} {}", rest.len(), Hex(first))
    }
}
