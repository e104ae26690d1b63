// The bytes of one slot.
ghost use Rattle.std.specs.Prelude.{◌≡◌, true, ◌+◌, ◌≤◌, length};
ghost use Rattle.protocol.specs.Overwrite.{overwrite};
ghost use Rattle.slots.specs.Slot.{slot_fits, slot_bytes};

use hub_messages::firmware::{BOOT_STRING, LOCK_STRING};
use slots::Slot;

// Overwrites `out` from a place on with bytes. They go one by one, since `copy_from_slice` wants a function (`memmove`) of the C
// library's that no other call of the archive does.
pub(crate) fn put_bytes(out: &mut [u8], at: usize, bytes: &[u8])
    requires { at + length bytes.now ≤ length out.old }
    ensures { out.new ≡ overwrite out.old at bytes.now }
{
    for i in 0..bytes.len() {
        out[at + i] = bytes[i];
    }
}

// Overwrites `out` from a place on with the slot's bytes.
pub(crate) fn put_slot(out: &mut [u8], at: usize, slot: Slot)
    requires { (at + length (slot_bytes slot) ≤ length out.old) × (slot_fits slot ≡ true) }
    ensures { out.new ≡ overwrite out.old at (slot_bytes slot) }
{
    match slot {
        Slot::Nothing => {}
        Slot::Byte(value)
        | Slot::UpTo { value, .. }
        | Slot::Between { value, .. }
        | Slot::InformationType(value)
        | Slot::AlertStatus(value)
        | Slot::StartByte(value)
        | Slot::EndState(value) => put_bytes(out, at, &[value]),
        // no joined arms here: one that binds a signed number of two cases has no proof yet
        Slot::SignedByte(value) => put_bytes(out, at, &value.to_le_bytes()),
        Slot::SignedSpeed(value) => put_bytes(out, at, &value.to_le_bytes()),
        Slot::Word(value) => put_bytes(out, at, &value.to_le_bytes()),
        Slot::Long(value) => put_bytes(out, at, &value.to_le_bytes()),
        Slot::SignedLong(value) => put_bytes(out, at, &value.to_le_bytes()),
        Slot::Degrees(value) => put_bytes(out, at, &value.to_le_bytes()),
        Slot::HighFirst(value) => put_bytes(out, at, &value.to_be_bytes()[2..]),
        Slot::Float(x) => put_bytes(out, at, &x.to_le_bytes()),
        Slot::BootString => put_bytes(out, at, &BOOT_STRING),
        Slot::LockString => put_bytes(out, at, &LOCK_STRING),
    }
}
