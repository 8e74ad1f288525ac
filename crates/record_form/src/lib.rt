// The packed record of document 01: its reader, the rest behind it, and its writer.
#![tactic(auto)]

ghost use Rattle.std.specs.Prelude.{◌≡◌, true, ◌++◌, ◌+◌, ◌-◌, ◌≤◌, ◌<◌, length, drop, eqb, MatchResult};
ghost use Rattle.meaning.specs.Limits.{last_stamp};
ghost use Rattle.outcomes.specs.declared.Refusal.TheVariants.{StampTooLate};
ghost use Rattle.outcomes.specs.Numbers.{refusal_in};
ghost use Rattle.fields.specs.Rest.{Rest};
ghost use Rattle.record_form.specs.Record.{record_size, numbers, read_case, taken, answered, broken, stamp_above, fields_refusal, IsRead, bytes_read, write_refusal, record_form, IsWritten};

use limits::{LAST_ACTION, LAST_STAMP};
use outcomes::Refusal;

// "Record, 6 bytes"
pub const RECORD_SIZE: usize = 6;

// A record that was read.
#[derive(Clone, Copy)]
pub enum Record {
    // The action and the stamp.
    Input(u8, u64),
    Output(u8, u64),
    // The number of lost lines, 63 for more or unknown, and the stamp.
    Gap(u8, u64),
    // The stamp.
    End(u64),
}

// A record, read or to be written, is broken; `later`: its stamp is other than the one before.
fn is_broken(kind: u64, action: u8, later: bool) -> bool
    ensures { result ≡ broken kind action later }
{
    match kind {
        0..=2 => false,
        3 => action != 0 || later,
        _ => true,
    }
}

// The stamp that lies so much behind the one before. That one, or the sum, may be past the limit.
fn stamp_behind(before: u64, less: u64) -> Result<u64, Refusal>
    ensures { MatchResult result (λ stamp. (stamp ≡ before + less) × (before ≤ last_stamp) × (less ≤ last_stamp - before))
        (λ refusal. (refusal ≡ StampTooLate) × (stamp_above (before + less) before ≡ true)) }
{
    if LAST_STAMP < before || LAST_STAMP - before < less {
        return Err(Refusal::StampTooLate);
    }
    Ok(before + less)
}

// The record that these fields are, by its kind, each with its own rules. The kind is the number in two bits: the document wants a match on it.
pub fn record_of(kind: u64, action: u8, less: u64, before: u64) -> Result<Record, Refusal>
    requires { kind < 4 }
    ensures { numbers (read_case result) ≡ answered (fields_refusal kind action less before) (taken kind action (before + less)) }
{
    match kind {
        0 => Ok(Record::Input(action, stamp_behind(before, less)?)),
        1 => Ok(Record::Output(action, stamp_behind(before, less)?)),
        2 => Ok(Record::Gap(action, stamp_behind(before, less)?)),
        // 3: two bits hold no other.
        _ if action != 0 || less != 0 => Err(Refusal::Broken),
        _ => Ok(Record::End(stamp_behind(before, less)?)),
    }
}

// Reads one record from the front of `s`; `before` is the stamp before it.
pub fn read_record(s: &[u8], before: u64) -> Result<Record, Refusal>
    ensures { IsRead s.now before (read_case result) }
{
    if s.len() < RECORD_SIZE {
        return Err(Refusal::TooShort);
    }
    record_of(
        record_fields::kind_field(s),
        record_fields::action_field(s),
        record_fields::stamp_field(s),
        before,
    )
}

// The reader took a record.
pub fn is_taken(read: Result<Record, Refusal>) -> bool
    ensures { result ≡ eqb (numbers (read_case read)).refusal 0 }
{
    read.is_ok()
}

// What `read_record` leaves unread of the caller's own bytes: all of them where it refuses.
pub fn record_rest(s: &[u8], before: u64) -> &[u8]
    ensures { Rest (bytes_read s.now before) s.entry result }
{
    if is_taken(read_record(s, before)) {
        &s[6..]
    } else {
        s
    }
}

// The refusal of a record to be written.
fn refused(kind: u8, action: u8, stamp: u64, before: u64, size: usize) -> Result<(), Refusal>
    ensures { refusal_in result ≡ write_refusal kind action stamp before size }
{
    if is_broken(u64::from(kind), action, stamp != before) {
        return Err(Refusal::Broken);
    }
    if LAST_ACTION < action {
        return Err(Refusal::Number);
    }
    if LAST_STAMP < stamp || LAST_STAMP < before {
        return Err(Refusal::StampTooLate);
    }
    if stamp < before {
        return Err(Refusal::StampTooEarly);
    }
    if size < RECORD_SIZE {
        return Err(Refusal::NoRoom);
    }
    Ok(())
}

// Puts the form of a record with these fields at the front of `buf`.
fn put_record(kind: u8, action: u8, less: u64, buf: &mut [u8])
    requires { record_size ≤ length buf.old }
    ensures { buf.new ≡ record_form kind action less ++ drop record_size buf.old }
{
    let mut list = [0u8; 48];
    fields::put_field(&mut list, 0, 2, u64::from(kind));
    fields::put_field(&mut list, 2, 6, u64::from(action));
    fields::put_field(&mut list, 8, 40, less);
    fields::pack(&list, RECORD_SIZE, buf);
}

// Writes a record to the front of `buf`; `before` is the stamp before it. The kind is a number, since one above 3 is refused as broken (8).
pub fn write_record(
    kind: u8,
    action: u8,
    stamp: u64,
    before: u64,
    buf: &mut [u8],
) -> Result<(), Refusal>
    ensures { IsWritten kind action stamp before buf.old buf.new (refusal_in result) }
{
    refused(kind, action, stamp, before, buf.len())?;
    put_record(kind, action, stamp - before, buf);
    Ok(())
}
