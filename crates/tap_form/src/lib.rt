// The packed record of the tap card (document 02, CR 4): its reader, and the rest behind it.
#![tactic(auto)]

ghost use Rattle.std.specs.Prelude.{◌≡◌, ◌+◌, ◌%◌, ◌^◌, ◌<◌, ◌≤◌, length};
ghost use Rattle.fields.specs.Fields.{field};
ghost use Rattle.fields.specs.Rest.{Rest};
ghost use Rattle.record_form.specs.Record.{numbers, read_case, taken, answered};
ghost use Rattle.tap_form.specs.Tap.{tap_size, since, tap_stamp, tap_action, tap_fields_refusal, IsTapRead, tap_bytes_read};

use limits::MOST_LOST;
use outcomes::Refusal;
use record_form::Record;

// "records of 5 bytes"
pub const TAP_SIZE: usize = 5;

// The 32 bits of counter.
fn counter_field(s: &[u8]) -> u32
    requires { tap_size ≤ length s.now }
    ensures { result ≡ field s.now 8 32 }
{
    u32::from_be_bytes([s[1], s[2], s[3], s[4]])
}

// A counter less an earlier one, which returns to 0 after 4,294,967,295.
fn less(counter: u32, earlier: u32) -> u32
    ensures { (result + earlier) % 2 ^ 32 ≡ counter }
{
    counter.wrapping_sub(earlier)
}

// The time from the stamp before, whose own counter is what it leaves modulo 2^32.
fn time_since(counter: u32, before: u64) -> u64
    ensures { result ≡ since counter before }
{
    u64::from(less(counter, (before % 4_294_967_296) as u32))
}

// The record that these fields are: by its kind as in document 01, but that the counter of an end is no time, and is 0, and that the card
// does not say how many lines a gap lost.
fn tap_of(kind: u64, action: u8, counter: u32, before: u64) -> Result<Record, Refusal>
    requires { kind < 4 }
    ensures { numbers (read_case result)
        ≡ answered (tap_fields_refusal kind action counter before) (taken kind (tap_action kind action) (tap_stamp kind counter before)) }
{
    match kind {
        2 if action != 0 => Err(Refusal::Broken),
        2 => record_form::record_of(kind, MOST_LOST, time_since(counter, before), before),
        3 => record_form::record_of(kind, action, u64::from(counter), before),
        _ => record_form::record_of(kind, action, time_since(counter, before), before),
    }
}

// Reads one of the card's records from the front of `s`; `before` is the stamp before it, 0 before the first.
pub fn read_tap(s: &[u8], before: u64) -> Result<Record, Refusal>
    ensures { IsTapRead s.now before (read_case result) }
{
    // As in `read_record`: one function for both would take a size, a reader of the third field and a rule, which is no plainer.
    if s.len() < TAP_SIZE {
        return Err(Refusal::TooShort);
    }
    tap_of(
        record_fields::kind_field(s),
        record_fields::action_field(s),
        counter_field(s),
        before,
    )
}

// What `read_tap` leaves unread of the caller's own bytes: all of them where it refuses.
pub fn tap_rest(s: &[u8], before: u64) -> &[u8]
    ensures { Rest (tap_bytes_read s.now before) s.entry result }
{
    // As in `record_rest`, whose `&s[6..]` may not change (document 01), so that no function with the size as a parameter serves both.
    if record_form::is_taken(read_tap(s, before)) {
        &s[5..]
    } else {
        s
    }
}
