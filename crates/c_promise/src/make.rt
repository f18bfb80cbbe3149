// A unit made in lent bytes, whatever they were.
ghost use Rattle.std.specs.Prelude.{◌≡◌};
ghost use Rattle.port.specs.Device.{made};
ghost use Rattle.c_bytes.specs.Layout.{unit_bytes};

use c_bytes::places::{PORT_AT, UNIT};
use c_parts::put::put_state;
use port::types::Setting;
use state_parts::parts::fresh;

pub fn make(u: &mut [u8; UNIT], setting: Setting, configured: u8)
    ensures { u.new ≡ unit_bytes (made setting configured) }
{
    u[..PORT_AT].fill(0);
    put_state(u, fresh(setting, configured));
}
