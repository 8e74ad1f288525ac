// The calls that have nothing to do with a session: the judge, names, the packed forms and the refusal of a property.
ghost use Rattle.std.specs.Prelude.{◌≤◌};

use crate::numbers::Answer;
use crate::{Page, numbers};
use outcomes::Refusal;
use record_form::Record;
use script::arguments::Arguments;
use script::properties;
use script::properties::PropertyText;
use script::text::{Hex, Rest};
use std::fmt;
use std::fmt::Write;

// A buffer to write in has so many bytes at most.
const BUFFER: usize = 512;

// A buffer: the first bytes of a string, with zeros behind them that are not lent.
struct Buffer {
    bytes: [u8; BUFFER],
    len: usize,
    ghost most: { len ≤ 512 },
}

fn buffer_of(string: &[u8]) -> Buffer {
    let len = string.len().min(BUFFER);
    let mut bytes = [0; BUFFER];
    bytes[..len].copy_from_slice(&string[..len]);
    Buffer { bytes, len }
}

// The answer of the judge, and the one number for C.
pub fn judge(page: &mut Page, arguments: &mut Arguments<'_>) -> fmt::Result {
    let property = arguments.string();
    let trace = arguments.string();
    let judged = stretch::judge(property, trace);
    let answer = Answer(judged.map(|judged| [u64::from(judged.verdict), judged.count as u64]));
    let number = stretch::anthegyra_stretch_judge(property, trace);
    writeln!(page, "J {answer} {number}")
}

pub fn read_property(page: &mut Page, arguments: &mut Arguments<'_>) -> fmt::Result {
    let form = arguments.string();
    let read = property_form::read_property(form);
    let answer = numbers::refusal(read.map(|_| ()));
    let rest = Rest(property_form::property_rest(form));
    writeln!(page, "P {answer} {rest}")?;
    write!(page, "{}", PropertyText(&read.unwrap_or(property::none())))
}

pub fn write_property(page: &mut Page, arguments: &mut Arguments<'_>) -> fmt::Result {
    let property = properties::read(arguments);
    let Buffer { mut bytes, len } = buffer_of(arguments.string());
    let written = property_form::write_property(property, &mut bytes[..len]);
    let answer = Answer(written.map(|size| [size as u64]));
    writeln!(page, "Q {answer} {}", Hex(&bytes[..len]))
}

// What a record reader answered: refusal, kind, action (of a gap its number of lost lines), stamp.
fn read_answer(read: Result<Record, Refusal>) -> Answer<3> {
    Answer(read.map(|record| match record {
        Record::Input(action, stamp) => [0, u64::from(action), stamp],
        Record::Output(action, stamp) => [1, u64::from(action), stamp],
        Record::Gap(lost, stamp) => [2, u64::from(lost), stamp],
        Record::End(stamp) => [3, 0, stamp],
    }))
}

pub fn read_record(page: &mut Page, arguments: &mut Arguments<'_>) -> fmt::Result {
    let before = arguments.word();
    let form = arguments.string();
    let read = read_answer(record_form::read_record(form, before));
    let rest = Rest(record_form::record_rest(form, before));
    writeln!(page, "R {read} {rest}")
}

// The same of the tap card's record.
pub fn read_tap(page: &mut Page, arguments: &mut Arguments<'_>) -> fmt::Result {
    let before = arguments.word();
    let form = arguments.string();
    let read = read_answer(tap_form::read_tap(form, before));
    let rest = Rest(tap_form::tap_rest(form, before));
    writeln!(page, "K {read} {rest}")
}

pub fn write_record(page: &mut Page, arguments: &mut Arguments<'_>) -> fmt::Result {
    let kind = arguments.byte();
    let action = arguments.byte();
    let stamp = arguments.word();
    let before = arguments.word();
    let Buffer { mut bytes, len } = buffer_of(arguments.string());
    let written = record_form::write_record(kind, action, stamp, before, &mut bytes[..len]);
    let refusal = numbers::refusal(written);
    writeln!(page, "S {refusal} {}", Hex(&bytes[..len]))
}

pub fn refused(page: &mut Page, arguments: &mut Arguments<'_>) -> fmt::Result {
    let refusal = numbers::refusal(property::refused(properties::read(arguments)));
    writeln!(page, "V {refusal}")
}

// The refusal of a lookup in a site's and a release's list, and the name.
pub fn name_of(page: &mut Page, arguments: &mut Arguments<'_>) -> fmt::Result {
    let output = arguments.flag();
    let action = arguments.byte();
    let site = arguments.string();
    let release = arguments.string();
    let refusal = numbers::refusal(names::refused(site, release, output, action));
    let name = Hex(names::name(site, release, output, action));
    writeln!(page, "N {refusal} {name}")
}

// The number of the interface for C.
pub fn version(page: &mut Page) -> fmt::Result {
    let number = stretch::anthegyra_version();
    writeln!(page, "v {number}")
}
