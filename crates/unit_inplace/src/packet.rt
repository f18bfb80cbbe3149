// A Bulk-OUT packet in place.
ghost use Rattle.port.specs.Step.{out_packet, step};
ghost use Rattle.unit.specs.Promise.{device_of};
ghost use Rattle.unit_inplace.specs.InPlace.{Alters};

use out_step::store::packet_step;
use port::types::State;
use rules::verdict::Verdict;
use unit::types::Unit;

// A Bulk-OUT packet, on a unit that is altered where it stands: field by field, as the methods of a unit take it with its stores.
pub fn packet_in_place(u: &mut Unit, s: &[u8]) -> Verdict
    ensures { Alters (step (device_of u.old) (out_packet s.now)) u.new result }
{
    let st = State {
        small: u.small,
        split: u.split,
        remote: u.remote,
    };
    let plan = packet_step(&mut u.message, st, s);
    u.small = plan.state.small;
    u.split = plan.state.split;
    u.remote = plan.state.remote;
    plan.verdict
}
