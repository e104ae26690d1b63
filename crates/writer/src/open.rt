// Whether what follows the fields is right: refusal 6, and 7 of the open bytes.
ghost use Rattle.std.specs.Prelude.{◌≡◌, true, ◌<◌, ◌↔◌, IfSome, IsOk, IfErr, length};
ghost use Rattle.protocol.specs.declared.refusal.Refusal.TheVariants as Refusal';
ghost use Rattle.writer.specs.Open.{open_fits, place_of, open_outside};

use hub_messages::rule::{repeated_entry, wrong_feedback};
use protocol::{Message, Refusal};

// So many open bytes, for a message: of an 82 whole pairs; of a 43's list also its count.
#[tactic(auto, unfolding(crate::specs::Open::open_fits, protocol::specs::Form::layout, protocol::specs::Properties::longest, protocol::specs::Form::longest_mode_text))]
pub(crate) fn open_fits(m: Message, count: usize) -> bool
    ensures { result ≡ open_fits m count }
{
    // the most bytes: of a name 14, of other texts 122; of a mode's name 11, of its symbol 5
    match m {
        Message::PropertyText { property, .. } => {
            let longest = if property == 1 { 14 } else { 122 };
            (1..=longest).contains(&count)
        }
        Message::ModeText { information, .. } => {
            let longest = if information == 0 { 11 } else { 5 };
            (1..=longest).contains(&count)
        }
        Message::PortValue { .. } => (1..=123).contains(&count),
        Message::PortCombinations { combinations, .. } => {
            (1..=8).contains(&combinations.count) && count == 0
        }
        Message::OutputFeedback => count % 2 == 0 && (2..=124).contains(&count),
        Message::ModeDatasets { .. } => (1..=16).contains(&count),
        Message::PortValueCombined { .. } => (1..=121).contains(&count),
        _ => count == 0,
    }
}

// Refusal 7 at the byte of an index among those that start at a place, where there is one.
fn none_wrong(start: u16, wrong: Option<usize>) -> Result<(), Refusal>
    requires after_type { 2 < start }
    requires small { start < 7 }
    requires near { IfSome wrong (λ i. i < 124) }
    ensures ok { IsOk result ↔ (place_of start wrong ≡ 0) }
    ensures err { IfErr result (λ e. e ≡ Refusal'.OutsideList (place_of start wrong)) }
{
    match wrong {
        Some(i) => Err(Refusal::OutsideList {
            place: start + i as u16,
        }),
        None => Ok(()),
    }
}

// Refusal 7 at the first open byte that is not as it must be, which only an 82 and a 42's list can have.
pub(crate) fn open_listed(m: Message, open: &[u8]) -> Result<(), Refusal>
    requires { open_fits m (length «open».now) ≡ true }
    ensures ok { IsOk result ↔ (open_outside m «open».now ≡ 0) }
    ensures err { IfErr result (λ e. e ≡ Refusal'.OutsideList (open_outside m «open».now)) }
{
    match m {
        Message::OutputFeedback => none_wrong(3, wrong_feedback(open)),
        Message::ModeDatasets { .. } => none_wrong(6, repeated_entry(open)),
        _ => Ok(()),
    }
}
