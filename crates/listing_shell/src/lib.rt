// The printing programs but for the places that the input comes from and the listing goes to, and the form of the records: a packed
// property and records are read, and the listing is written. What is written, the crate `printed` says.
#![tactic(auto)]

ghost use Rattle.std.specs.Prelude.{◌≤◌, ◌≡◌, true, false, length, take};
ghost use Rattle.io.specs.Counts.{IsPrefixLen};
ghost use Rattle.property_form.specs.Form.{form_size};
ghost use Rattle.property_form.specs.Read.{length_read};
ghost use Rattle.record_form.specs.Record.{ReadBy, read_case};
ghost use Rattle.session_record.specs.Record.{out_of_range};
ghost use Rattle.session_record.specs.Step.{fresh_of};
ghost use Rattle.session_record.specs.Loan.{memory_in};
ghost use Rattle.listing_shell.specs.Form.{size_of, reader_of, Lists};
ghost use Rattle.listing_shell.specs.Next.{Begun, Follows};

use line_text::{Line, Text};
use outcomes::Refusal;
use printed::Printed;
use printed::lent::Added;
use property::Property;
use record_form::Record;
use session_record::{Lent, Session, rows_of};
use std::io::{Read, Write};
use table::Steps;

// Reads until `buf` is full, the input ends or a read fails, and answers how many bytes it put to the front of `buf`. A reader that keeps
// nothing back, as standard input or a file, is asked for no more bytes than there is room for. A read that a signal interrupts has failed.
pub fn read_full<R: Read>(input: &mut R, buf: &mut [u8]) -> usize
    ensures { IsPrefixLen result buf.new }
{
    let mut done = 0;
    // A `while`, since a turn fills as many bytes as came; std's `read_exact` does not say how many.
    while done < buf.len() {
        match input.read(&mut buf[done..]) {
            Ok(0) | Err(_) => break,
            Ok(n) => done += n,
        }
    }
    done
}

// Writes all bytes, or stops at the first write that takes none or fails. One that a signal interrupts is made again.
pub fn write_all<W: Write>(out: &mut W, bytes: &[u8]) -> bool {
    out.write_all(bytes).is_ok()
}

// Writes a line at once: who reads the listing sees it before the next record comes.
pub fn write<W: Write, const ROOM: usize>(out: &mut W, text: Text<ROOM>) -> bool {
    write_all(out, text.as_bytes())
}

// Writes what was added, and answers whether the listing goes on. One that cannot be written does not.
pub fn shown<W: Write, const ROOM: usize>(out: &mut W, text: Text<ROOM>, more: bool) -> bool
    ensures { result ≡ true → more ≡ true }
{
    write(out, text) && more
}

// Reads a packed property to the front of `form`. Its first byte says how many bytes it has, and no more are read. Input that
// ends early and a read that fails leave fewer, which the answer then refuses.
pub fn read_form<R: Read>(input: &mut R, form: &mut [u8]) -> usize
    requires { 71 ≤ length form.old }
    ensures { IsPrefixLen result form.new × (result ≤ form_size (length_read (take result form.new))) }
{
    if read_full(input, &mut form[..1]) == 0 {
        return 0;
    }
    let size = printed::size(form[0]);
    1 + read_full(input, &mut form[1..size])
}

// Reads the property.
pub fn begun<R: Read>(input: &mut R) -> Printed
    ensures { Begun result × (result.more ≡ true → out_of_range result.session ≡ false) }
{
    let mut form = [0u8; 71];
    let got = read_form(input, &mut form);
    printed::begin(&form[..got])
}

// Which records stand behind the property: document 01's, or the tap card's. A closure for the reader would bring its promise along in every
// clause down from `list`; the enum brings a word.
#[derive(Clone, Copy)]
pub enum Form {
    Record,
    Tap,
}

// The number of bytes of a record.
fn record_size(form: Form) -> usize
    ensures { result ≡ size_of form }
{
    match form {
        Form::Record => record_form::RECORD_SIZE,
        Form::Tap => tap_form::TAP_SIZE,
    }
}

// The record at the front of the bytes; `before` is the stamp before it.
fn read_record(form: Form, bytes: &[u8], before: u64) -> Result<Record, Refusal>
    ensures { ReadBy (reader_of form) bytes.now before (read_case result) }
{
    match form {
        Form::Record => record_form::read_record(bytes, before),
        Form::Tap => tap_form::read_tap(bytes, before),
    }
}

// Reads one record.
fn next<R: Read>(input: &mut R, form: Form, lent: &mut Lent<'_>, count: u64) -> Added
    ensures { Lists form (memory_in lent.old) count result (memory_in lent.new) }
{
    let size = record_size(form);
    let mut bytes = [0u8; 6];
    let got = read_full(input, &mut bytes[..size]);
    let read = read_record(form, &bytes[..got], lent.status.clock.latest);
    printed::lent::record(lent, count, read)
}

// Writes what a record added, and answers whether the listing goes on. The form, the property and the number of records so far are there for
// the contract alone: they say which text is the next of the listing, and no other can be put.
fn put<W: Write>(out: &mut W, form: Form, p: Property, records: u64, text: Line, more: bool) -> bool
    requires { Follows form p records text }
    ensures { result ≡ true → more ≡ true }
{
    shown(out, text, more)
}

// Lists the records. The table is made once, and the rows are lent from record to record. A proved loop has to end, and
// nothing says that the input does: the loop counts its turns, up to a number that no run comes to.
fn records<R: Read, W: Write>(input: &mut R, out: &mut W, form: Form, s: Session)
    requires { (s ≡ (fresh_of s.property).session) × (out_of_range s ≡ false) }
{
    let mut table = [0; 4257];
    table::fill(s.property, &mut table);
    let steps = Steps::new(s.property, &table);
    let mut rows = rows_of(s);
    let mut lent = Lent {
        steps: &steps,
        rows: &mut rows,
        status: s.shared.status,
    };
    let mut count = 0;
    for turns in 0..u64::MAX {
        let r = next(input, form, &mut lent, count);
        if !put(out, form, s.property, turns, r.text, r.more) {
            return;
        }
        count = r.count;
    }
}

// Lists what comes, up to the end record or a refusal and no further.
pub fn list<R: Read, W: Write>(input: &mut R, out: &mut W, form: Form) {
    if !write(out, printout::header()) {
        return;
    }
    let b = begun(input);
    if shown(out, b.text, b.more) {
        records(input, out, form, b.session);
    }
}
