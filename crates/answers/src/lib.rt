// One convention for the answers of all calls from C and Rust: one number, and the front of what was
// lent.
#![tactic(auto)]

ghost use Rattle.std.specs.Prelude.{◌≡◌};
ghost use Rattle.rules.specs.Answer.{accepted, passed};
ghost use Rattle.answers.specs.Call.{call_number, counted, plain_number, row_after, row_count};

use protocol::Refusal;

// A call as one number: how much was written, or a refusal's number above its place.
pub fn call_number(written: Result<usize, Refusal>) -> u64
    ensures { result ≡ call_number (counted written) }
{
    match written {
        Ok(count) => count as u64,
        Err(r) => r.number() as u64 * 4294967296 + r.place() as u64,
    }
}

// A call that answers nothing but whether it was accepted, as one number.
pub fn plain_number(outcome: Result<(), Refusal>) -> u64
    ensures { result ≡ plain_number (passed outcome) }
{
    call_number(outcome.map(|()| 0))
}

// An accepted call whose answer is a row: how many cells it has filled; 255 where there are fewer, of
// which none changes.
pub fn fill(cells: &mut [u64], row: &[u64]) -> Result<usize, Refusal>
    ensures { (counted result ≡ row_count cells.old (accepted row.now)) × (cells.new ≡ row_after cells.old (accepted row.now)) }
{
    if cells.len() < row.len() {
        return Err(Refusal::Unfit);
    }
    cells[..row.len()].copy_from_slice(row);
    Ok(row.len())
}
