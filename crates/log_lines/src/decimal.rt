// Numbers and bytes, put into an output at an index of the whole: the contracts say where a text stands in it, and a part would
// have to be cut for each. Numbers are not put by `write!`, since std's clauses for a lent slice say nothing of its bytes.
ghost use Rattle.std.specs.Prelude.{◌≡◌, [], ◌∷◌, ◌+◌, ◌≤◌, length};
ghost use Rattle.log_rules.specs.Decimal as Decimal;
ghost use Rattle.protocol.specs.Overwrite.{overwrite};
ghost use Rattle.log_rules.specs.OverwriteIfRoom.{overwrite_if_room};

// How many decimal digits a number has. The loop goes over the digits that are left, and counts no index.
fn places(n: u64) -> usize
    ensures { (result ≡ length (Decimal.decimal n)) × (1 ≤ result) × (result ≤ 20) }
{
    let mut k = 1;
    let mut rest = n;
    while 10 <= rest {
        rest /= 10;
        k += 1;
    }
    k
}

// Overwrites `out` from a place on with a number's `k` digits, the last one first. The loop ends by the digits that are left,
// so the first digit takes no division.
fn spell(out: &mut [u8], at: usize, k: usize, n: u64)
    requires { (k ≡ length (Decimal.decimal n)) × (at + k ≤ length out.old) }
    ensures { out.new ≡ overwrite out.old at (Decimal.decimal n) }
{
    let mut i = k;
    let mut rest = n;
    while 10 <= rest {
        i -= 1;
        out[at + i] = b'0' + (rest % 10) as u8;
        rest /= 10;
    }
    out[at] = b'0' + rest as u8;
}

// Puts a number's decimal digits at an index, where there is room for them, and answers how many there are.
fn put_digits(out: &mut [u8], at: usize, n: u64) -> usize
    requires { at + length (Decimal.decimal n) ≤ length out.old }
    ensures { (result ≡ length (Decimal.decimal n)) × (out.new ≡ overwrite out.old at (Decimal.decimal n)) }
{
    let k = places(n);
    spell(out, at, k, n);
    k
}

// Puts a signed number's text at an index, where there is room for any number's, and answers how long it is.
pub(crate) fn put_signed(out: &mut [u8], at: usize, n: i64) -> usize
    requires { at + 20 ≤ length out.old }
    ensures { (result ≡ length (Decimal.signed_decimal n)) × (result ≤ 20) × (out.new ≡ overwrite out.old at (Decimal.signed_decimal n)) }
{
    let size = n.unsigned_abs();
    if 0 <= n {
        return put_digits(out, at, size);
    }
    let k = put_digits(out, at + 1, size);
    out[at] = b'-';
    k + 1
}

// Puts a number's decimal digits at an index, where they fit, and answers how many there are.
pub fn put_decimal(out: &mut [u8], at: usize, n: u64) -> usize
    ensures { (result ≡ length (Decimal.decimal n)) × (result ≤ 20) × (out.new ≡ overwrite_if_room out.old at (Decimal.decimal n)) }
{
    let k = places(n);
    if k <= out.len() && at <= out.len() - k {
        spell(out, at, k, n);
    }
    k
}

// Puts one byte at an index, where that is inside.
pub fn put_byte(out: &mut [u8], at: usize, b: u8)
    ensures { out.new ≡ overwrite_if_room out.old at (b ∷ []) }
{
    if at < out.len() {
        out[at] = b;
    }
}

// Puts bytes at an index, where they fit.
pub fn put_bytes(out: &mut [u8], at: usize, bytes: &[u8])
    ensures { out.new ≡ overwrite_if_room out.old at bytes.now }
{
    if bytes.len() <= out.len() && at <= out.len() - bytes.len() {
        out[at..at + bytes.len()].copy_from_slice(bytes);
    }
}
