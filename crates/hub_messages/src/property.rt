// Hub properties: which operation each permits, and the bounds of their payloads. Reading and
// writing share it.
ghost use Rattle.std.specs.Prelude.{◌≡◌, ◌≤◌, ◌↔◌, IsOk, IfErr};
ghost use Rattle.protocol.specs.Properties as Properties;

use protocol::{Refusal, Way};

// The operations that each hub property (1 to 15) permits, a byte of bits for each: bit 0 is Set, bit 1
// Enable, bit 2 Disable, bit 3 Reset, bit 4 Request and bit 5 Update.
const PERMITTED: [u8; 15] = [
    0b111111, // 1 name
    0b110110, // 2 button
    0b110000, // 3 firmware version
    0b110000, // 4 hardware version
    0b110110, // 5 RSSI
    0b110110, // 6 battery voltage
    0b110000, // 7 battery type
    0b110000, // 8 manufacturer name
    0b110000, // 9 radio firmware version
    0b110000, // 10 protocol version
    0b110000, // 11 system type
    0b111001, // 12 network id
    0b110000, // 13 primary MAC address
    0b110000, // 14 secondary MAC address
    0b110001, // 15 network family
];

fn permits(property: usize, operation: usize) -> bool
    requires { ((1 ≤ property) × (property ≤ 15)) × ((1 ≤ operation) × (operation ≤ 6)) }
    ensures { result ≡ Properties.permits property operation }
{
    PERMITTED[property - 1] >> (operation - 1) & 1 == 1
}

// Which way an operation goes: 1 to 5 down, 6 up.
fn goes(way: Way, operation: u8) -> bool
    ensures { result ≡ Properties.goes way operation }
{
    match way {
        Way::Down => (1..=5).contains(&operation),
        Way::Up => operation == 6,
    }
}

#[tactic(auto, unfolding(protocol::specs::Properties::allowed))]
fn allowed(way: Way, property: u8, operation: u8) -> bool
    requires { (1 ≤ property) × (property ≤ 15) }
    ensures { result ≡ Properties.allowed way property operation }
{
    goes(way, operation) && permits(property as usize, operation as usize)
}

// Set and Update carry the payload.
#[tactic(auto, unfolding(protocol::specs::Properties::carries))]
pub fn carries(operation: u8) -> bool
    ensures { result ≡ Properties.carries operation }
{
    matches!(operation, 1 | 6)
}

// Whether both selectors are in their lists, or the refusal at the first that is not.
#[tactic(auto, unfolding(protocol::specs::Properties::outside_selector))]
pub fn outside_selector(way: Way, property: u8, operation: u8) -> Result<(), Refusal>
    ensures ok { IsOk result ↔ (Properties.outside_selector way property operation ≡ 0) }
    ensures err { IfErr result (λ e. e ≡ Refusal.OutsideList (Properties.outside_selector way property operation)) }
{
    if !(1..=15).contains(&property) {
        return Err(Refusal::OutsideList { place: 3 });
    }
    if !allowed(way, property, operation) {
        return Err(Refusal::OutsideList { place: 4 });
    }
    Ok(())
}

// The greatest value of a one-byte payload.
#[tactic(auto, unfolding(protocol::specs::Properties::greatest))]
pub fn greatest(property: u8) -> u8
    ensures { result ≡ Properties.greatest property }
{
    match property {
        2 | 7 => 1,
        6 => 100,
        15 => 8,
        _ => 255,
    }
}
