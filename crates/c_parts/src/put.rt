// A part of a unit put in its place, as bytes; every other byte stays.
ghost use Rattle.std.specs.Prelude.{◌≡◌, [], ◌∷◌, ℕ, ◌<◌};
ghost use Rattle.std.proofs.Math.Seq.{paste};
ghost use Rattle.c_bytes.specs.Layout.{PORT_AT, OUT_MESSAGE_AT, IN_REPLY_AT, UNIT, state_bytes};
ghost use Rattle.c_bytes.specs.Sides.{OUT, IN, STATE, out_bytes, in_bytes};

use c_bytes::part::Part;
use c_bytes::places::{IN_HALTED_AT, IN_RECENT_AT, OUT_HALTED_AT, OUT_RECENT_AT, UNIT};
use port::types::{BulkIn, BulkOut, State};
use wire_code::copies::copy_in;

pub fn put<const N: usize, P: Part<N>>(u: &mut [u8; UNIT], part: P)
    ensures { u.new ≡ paste u.old P.AT (P.bytes_of part) N }
{
    let b = part.to_bytes();
    copy_in(u, P::AT, &b, 0, N);
}

// A flag, or a tag.
pub fn put_byte(u: &mut [u8; UNIT], at: usize, b: u8)
    requires { at < UNIT }
    ensures { u.new ≡ paste u.old at (b ∷ []) 1 }
{
    u[at] = b;
}

// ** parts one behind the other; a side is no Part, as two bytes of it stand by themselves and are put so

pub fn put_out(u: &mut [u8; UNIT], o: BulkOut)
    ensures { u.new ≡ paste u.old OUT_MESSAGE_AT (out_bytes o) OUT }
{
    put(u, o.message);
    put_byte(u, OUT_HALTED_AT, o.halted);
    put(u, o.transfer);
    put_byte(u, OUT_RECENT_AT, o.recent);
}

pub fn put_in(u: &mut [u8; UNIT], b: BulkIn)
    ensures { u.new ≡ paste u.old IN_REPLY_AT (in_bytes b) IN }
{
    put(u, b.reply);
    put(u, b.transfer);
    put_byte(u, IN_HALTED_AT, b.halted);
    put_byte(u, IN_RECENT_AT, b.recent);
}

pub fn put_state(u: &mut [u8; UNIT], st: State)
    ensures { u.new ≡ paste u.old PORT_AT (state_bytes st) STATE }
{
    put(u, st.small.port);
    put_out(u, st.small.bulkout);
    put_in(u, st.small.bulkin);
    put(u, st.small.interrupt);
    put(u, st.split);
    put(u, st.remote);
}
