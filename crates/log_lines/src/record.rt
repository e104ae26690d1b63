// One record of a log: time in ms, direction, a zero, experiment number, then the message part.
ghost use Rattle.std.specs.Prelude.{◌≡◌, ◌≤◌, get_or};
ghost use Rattle.log_rules.specs.Record.{all_zero, message_size, message_in, malformed, way_of, experiment_in};

use codec::tail;
use numbers::u16_at;
use protocol::Way;
use values::plan::front;

// Bytes before the message part.
const FRONT: usize = 8;

// Bytes of the message part, and of a record.
const PART: usize = 128;

pub const RECORD_SIZE: usize = 136;

// Whether all bytes are 0. They are joined by |, since `all`, which stops at the first that is not 0, takes 253 instructions
// a record more.
fn all_zero(s: &[u8]) -> bool
    ensures { result ≡ all_zero s.now }
{
    let mut found = 0;
    for b in s {
        found |= *b;
    }
    found == 0
}

// How long the message is: as its first byte says, or all of its part if that is over 127.
fn message_size(s: &[u8]) -> usize
    ensures { (result ≡ message_size 128 s.now) × (result ≤ 128) }
{
    match s.get(FRONT) {
        Some(first) if *first <= 127 => usize::from(*first),
        Some(_) => PART,
        None => 0,
    }
}

// The message of a record; 0 stands in for a missing byte.
pub fn message_in(s: &[u8]) -> &[u8]
    ensures { result.now ≡ message_in 128 s.now }
{
    front(tail(s, FRONT), message_size(s))
}

// Refusal 19: another size, a direction over 1, byte 5 not 0, or a nonzero byte after the message.
pub fn is_malformed(s: &[u8]) -> bool
    ensures { result ≡ malformed 128 s.now }
{
    s.len() != RECORD_SIZE
        || 1 < s[4]
        || s[5] != 0
        || !all_zero(&s[FRONT + message_size(s)..RECORD_SIZE])
}

// The direction of a record; 0 stands in for a missing byte.
pub fn way_in(s: &[u8]) -> Way
    ensures { result ≡ way_of (get_or s.now 4 0) }
{
    match s.get(4) {
        None | Some(0) => Way::Down,
        Some(_) => Way::Up,
    }
}

// The experiment number of a record; 0 stands in for a missing byte.
pub fn experiment_in(s: &[u8]) -> u16
    ensures { result ≡ experiment_in s.now }
{
    u16_at(s, 6)
}
