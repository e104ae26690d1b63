// What is printed at the end of a log.
ghost use Rattle.std.specs.Prelude.{◌≡◌, true, [], ◌∷◌, ◌+◌, ◌≤◌, ◌<◌, length};
ghost use Rattle.log_rules.specs.Line as Line;
ghost use Rattle.log_rules.specs.Output.{numbered, total_text};
ghost use Rattle.protocol.specs.Overwrite.{overwrite};
ghost use Rattle.log_rules.specs.OverwriteIfRoom.{overwrite_if_room};
ghost use Rattle.log_rules.specs.Ending.{ending_in, most_count};

use crate::decimal::{put_byte, put_bytes, put_decimal};

// How many lines were printed, and how many of them are refusals.
#[derive(Clone, Copy)]
pub struct Totals {
    pub lines: u64,
    pub refused: u64,
}

// The greatest total that a `u64` holds.
pub const MOST_COUNT: u64 = u64::MAX;

// The totals, at an index: "total N refused M".
fn put_total(out: &mut [u8], at: usize, totals: Totals) -> usize
    requires { at + 56 ≤ length out.old }
    ensures { (result ≡ length (total_text totals.lines totals.refused)) × (result ≤ 56) × (out.new ≡ overwrite out.old at (total_text totals.lines totals.refused)) }
{
    put_bytes(out, at, b"total ");
    let n = put_decimal(out, at + 6, totals.lines);
    put_bytes(out, at + 6 + n, b" refused ");
    let m = put_decimal(out, at + 15 + n, totals.refused);
    put_byte(out, at + 15 + n + m, b'\n');
    16 + n + m
}

// The line of a short last piece, after so many lines: its number and 19.
fn put_last(out: &mut [u8], lines: u64) -> usize
    requires { (24 ≤ length out.old) × (lines < most_count) }
    ensures { (result ≡ length (numbered lines (Line.refused 19 ∷ []))) × (result ≤ 24) × (out.new ≡ overwrite out.old 0 (numbered lines (Line.refused 19 ∷ []))) }
{
    let n = put_decimal(out, 0, lines + 1);
    put_bytes(out, n, b" 19\n");
    n + 4
}

// The ending where a short last piece is left.
fn put_cut(out: &mut [u8], totals: Totals) -> usize
    requires { 128 ≤ length out.old }
    ensures { (result ≡ length (ending_in (length out.old) totals.lines totals.refused true)) × (result ≤ 128) × (out.new ≡ overwrite out.old 0 (ending_in (length out.old) totals.lines totals.refused true)) }
{
    if totals.lines == MOST_COUNT || totals.refused == MOST_COUNT {
        return 0;
    }
    let n = put_last(out, totals.lines);
    let after = Totals {
        lines: totals.lines + 1,
        refused: totals.refused + 1,
    };
    n + put_total(out, n, after)
}

// What is printed at the end of the input, at the start of `out`: where a short last piece is left,
// its line, and the totals. Answers how long it is; 0, and nothing is done, where `out` has fewer
// than 128 bytes or a total is past the greatest count: the ending is empty there, and 0 is its
// length (`ending_in`).
pub fn put_ending(out: &mut [u8], totals: Totals, cut: bool) -> usize
    ensures { (result ≡ length (ending_in (length out.old) totals.lines totals.refused cut)) × (result ≤ length out.old) × (out.new ≡ overwrite_if_room out.old 0 (ending_in (length out.old) totals.lines totals.refused cut)) }
{
    if out.len() < 128 {
        return 0;
    }
    if cut {
        put_cut(out, totals)
    } else {
        put_total(out, 0, totals)
    }
}
