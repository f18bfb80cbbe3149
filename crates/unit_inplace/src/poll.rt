// A Bulk-IN poll in place.
ghost use Rattle.std.specs.Prelude.{length};
ghost use Rattle.port.specs.Step.{in_poll, quiet, step};
ghost use Rattle.unit.specs.Promise.{device_of};
ghost use Rattle.unit_inplace.specs.InPlace.{Sends};

use crate::types::Sent;
use in_step::poll::poll_step;
use port::types::State;
use unit::types::Unit;

// A poll, on a unit that is altered where it stands; its packet goes into the lent buffer `b`.
pub fn poll_in_place(u: &mut Unit, b: &mut [u8]) -> Sent
    ensures { Sends (step (device_of u.old) (quiet (in_poll (length b.old)))) b.old b.new u.new result }
{
    let st = State {
        small: u.small,
        split: u.split,
        remote: u.remote,
    };
    let given = poll_step(&u.reply, st, b);
    u.small = given.state.small;
    u.split = given.state.split;
    u.remote = given.state.remote;
    Sent {
        verdict: given.verdict,
        len: given.len,
    }
}
