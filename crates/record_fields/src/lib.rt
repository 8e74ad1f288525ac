// The fields of a packed record, from its bytes: the kind, the action, the stamp.
#![tactic(auto)]

ghost use Rattle.std.specs.Prelude.{◌≡◌, ◌≤◌, length};
ghost use Rattle.fields.specs.Fields.{field};

// The two bits of kind.
pub fn kind_field(s: &[u8]) -> u64
    requires { 1 ≤ length s.now }
    ensures { result ≡ field s.now 0 2 }
{
    fields::field_at(s, 0, 2)
}

// The 6 bits of action; of a gap, its number of lost lines.
pub fn action_field(s: &[u8]) -> u8
    requires { 1 ≤ length s.now }
    ensures { result ≡ field s.now 2 6 }
{
    fields::field_at(s, 2, 6) as u8
}

// The 40 bits of stamp, which is less the stamp before.
pub fn stamp_field(s: &[u8]) -> u64
    requires { 6 ≤ length s.now }
    ensures { result ≡ field s.now 8 40 }
{
    u64::from_be_bytes([0, 0, 0, s[1], s[2], s[3], s[4], s[5]])
}
