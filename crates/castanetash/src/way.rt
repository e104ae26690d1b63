// The way of a message as a number.
ghost use Rattle.std.specs.Prelude.{◌≡◌};
ghost use Rattle.message_rows.specs.Row.{way_of};

use protocol::Way;

// 0 is down, any other number up. `From` would have to stand in `protocol` with a contract over a caller's number, and a call
// would be no shorter.
pub(crate) fn way_of(way: u8) -> Way
    ensures { result ≡ way_of way }
{
    if way == 0 { Way::Down } else { Way::Up }
}
