// A Bulk-IN poll, on the unit in bytes.
ghost use Rattle.std.specs.Prelude.{length};
ghost use Rattle.port.specs.In.{in_rules, next_packet};
ghost use Rattle.port.specs.Device.{unsent_in};
ghost use Rattle.port.specs.Step.{quiet, in_poll};
ghost use Rattle.in_step.specs.Poll.{CanPoll, Cuts};
ghost use Rattle.port.specs.Parts.{STORE};
ghost use Rattle.c_bytes.specs.Layout.{REPLY_AT, part, state_in};
ghost use Rattle.c_promise.specs.Promise.{IsGate, on_bytes, Fills};

use c_bytes::places::{REPLY_AT, UNIT};
use c_parts::put::put;
use c_parts::read::{in_of, part, part_of};
use c_promise::answer::refused;
use c_promise::state::sound_state;
use c_promise::types::TmcAnswer;
use in_step::poll::{in_gate, next_packet};
use in_step::types::InPacket;
use port::types::{BulkIn, Port};
use rules::DONE;
use rules::refusal::Refusal;
use rules::verdict::only;

// The first rule that applies to a poll into `room` bytes refuses it. Each call from C has this line, with its own gate in it.
fn gate(u: &[u8; UNIT], room: usize) -> Result<(), Refusal>
    ensures { IsGate u.now (in_rules (state_in u.now) room) result }
{
    in_gate(sound_state(u)?, room)
}

// The next packet, cut from the reply.
fn cut(u: &[u8; UNIT], p: usize, side: BulkIn, b: &mut [u8]) -> InPacket
    requires { CanPoll p side (length b.old) }
    ensures { Cuts (next_packet p side (unsent_in side (part REPLY_AT STORE u.now))) result b.old b.new }
{
    next_packet(part(u, REPLY_AT), p, side, b)
}

pub fn bulk_in(u: &mut [u8; UNIT], b: &mut [u8]) -> TmcAnswer
    ensures { Fills (on_bytes u.old (quiet (in_poll (length b.old)))) b.old b.new u.new result }
{
    if let Err(refusal) = gate(u, b.len()) {
        return refused(refusal);
    }
    let p: Port = part_of(u);
    let packet = cut(u, usize::from(p.setting.packet), in_of(u), b);
    put(u, packet.side.reply);
    put(u, packet.side.transfer);
    TmcAnswer {
        verdict: only(DONE),
        len: packet.len,
    }
}
