// Which values a field may have.
ghost use Rattle.std.specs.Prelude.{◌≡◌, ◌<◌, ◌↔◌, length, IsTrue, MatchOption, IfSome, IsOk, IfErr};
ghost use Rattle.std.proofs.Math.Option.{none, some};
ghost use Rattle.protocol.specs.Form as Form;
ghost use Rattle.protocol.specs.Form.{wrong_byte};

use protocol::Refusal;

// Refusal 6 where a message has not the one size that it may have.
pub fn exactly(s: &[u8], wanted: u16) -> Result<(), Refusal>
    ensures ok { IsOk result ↔ (length s.now ≡ wanted) }
    ensures err { IfErr result (λ e. e ≡ Refusal.WrongSize wanted) }
{
    if s.len() != usize::from(wanted) {
        return Err(Refusal::WrongSize { wanted });
    }
    Ok(())
}

// Refusal 7 at a place whose value is not in its list.
pub fn listed(is_listed: bool, place: u16) -> Result<(), Refusal>
    ensures ok { IsOk result ↔ IsTrue is_listed }
    ensures err { IfErr result (λ e. e ≡ Refusal.OutsideList place) }
{
    if !is_listed {
        return Err(Refusal::OutsideList { place });
    }
    Ok(())
}

// 22: 0 to 5, 7, 8, 80.
#[tactic(auto, unfolding(protocol::specs::Form::information_type))]
pub fn is_information_type(information: u8) -> bool
    ensures { result ≡ Form.information_type information }
{
    matches!(information, 0..=5 | 7 | 8 | 0x80)
}

// 03: 00 or FF.
#[tactic(auto, unfolding(protocol::specs::Form::alert_status))]
pub fn is_alert_status(status: u8) -> bool
    ensures { result ≡ Form.alert_status status }
{
    matches!(status, 0x00 | 0xFF)
}

// 81: each half of the start byte is 0 or 1.
#[tactic(auto, unfolding(protocol::specs::Form::start_byte))]
pub fn is_start_byte(start: u8) -> bool
    ensures { result ≡ Form.start_byte start }
{
    start / 16 <= 1 && start % 16 <= 1
}

// 0C: a speed whose sign is its direction, -100 to 100.
#[tactic(auto, unfolding(protocol::specs::Form::signed_speed))]
pub fn is_signed_speed(speed: i8) -> bool
    ensures { result ≡ Form.signed_speed speed }
{
    (-100..=100).contains(&speed)
}

// 0C: 0 to 10,000,000 degrees.
#[tactic(auto, unfolding(protocol::specs::Form::degrees))]
pub fn is_degrees(degrees: i32) -> bool
    ensures { result ≡ Form.degrees degrees }
{
    (0..=10_000_000).contains(&degrees)
}

// 0C, 0D, 0E: float, hold or brake.
#[tactic(auto, unfolding(protocol::specs::Form::end_state))]
pub fn is_end_state(state: u8) -> bool
    ensures { result ≡ Form.end_state state }
{
    matches!(state, 0 | 126 | 127)
}

// 82: the index of the first feedback over 31 among pairs of port and feedback. The search goes over pairs, since one over
// bytes takes twice as many steps.
pub fn wrong_feedback(pairs: &[u8]) -> Option<usize>
    ensures first { MatchOption result (wrong_byte Form.feedback_pairs pairs.now ≡ none) (λ i. wrong_byte Form.feedback_pairs pairs.now ≡ some i) }
    ensures inside { IfSome result (λ i. i < length pairs.now) }
{
    let pair = (0..pairs.len() / 2).find(|&k| 31 < pairs[2 * k + 1])?;
    Some(2 * pair + 1)
}

// 42: the index of the first entry that is one of those before it.
pub fn repeated_entry(entries: &[u8]) -> Option<usize>
    ensures first { MatchOption result (wrong_byte Form.mode_dataset_list entries.now ≡ none) (λ i. wrong_byte Form.mode_dataset_list entries.now ≡ some i) }
    ensures inside { IfSome result (λ i. i < length entries.now) }
{
    (0..entries.len()).find(|&i| entries[..i].contains(&entries[i]))
}
