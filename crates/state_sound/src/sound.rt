// Whether a unit is sound, part by part.
ghost use Rattle.std.specs.Prelude.{◌≡◌, ℕ};
ghost use Rattle.port.specs.Parts.{is_size};
ghost use Rattle.port.specs.Interrupt.{asks_service, is_waiting};
ghost use Rattle.port.specs.Sound.{is_flag, port_sound, open_sound, held_sound, resting_sound, out_sound, unasked, unsending, idle};
ghost use Rattle.port.specs.Sound.{asked_sound, sending_sound, phase_sound};
ghost use Rattle.port.specs.Sound.{in_sound, packet_sound, waiting_sound, silent_sound, interrupt_sound};
ghost use Rattle.port.specs.Sound.{clear_sound, not_owed, abort_out_sound, split_sound, sound};

use port::types::{
    ASKED, BIT_6, BulkIn, BulkOut, CLOSED, FULL_SPEED, HIGH_SPEED, InTransfer, InterruptIn, Notify,
    OWED, OutMessage, Port, SENDING, SERVICE_REQUEST, STORE, Split, State,
};

// A packet size of 64 or 512.
#[tactic(auto, using(rules::proofs::Choice::picks))]
pub fn is_size(p: u16) -> bool
    ensures { result ≡ is_size p }
{
    p == FULL_SPEED || p == HIGH_SPEED
}

// A flag, 0 or 1.
fn is_flag(n: u8) -> bool
    ensures { result ≡ is_flag n }
{
    n <= 1
}

#[tactic(auto, using(rules::proofs::Choice::picks), unfolding(port::specs::Sound::port_sound))]
fn port_sound(p: Port) -> bool
    ensures { result ≡ port_sound p }
{
    is_size(p.setting.packet) && is_flag(p.configured) && is_flag(p.ren)
}

// Bulk-OUT with a transfer open.
#[tactic(auto, using(rules::proofs::Choice::picks), unfolding(port::specs::Sound::open_sound))]
fn open_sound(o: BulkOut) -> bool
    ensures { result ≡ open_sound o }
{
    o.halted == 0
        && o.message.ready == 0
        && is_flag(o.transfer.end)
        && o.recent != 0
        && o.transfer.got != 0
        && o.transfer.got <= o.message.held
        && o.message.held <= STORE
        && o.transfer.left <= STORE - o.message.held
}

// What a message may hold between transfers. As one expression it takes `suspend` over its limit of speed.
#[tactic(auto, using(rules::proofs::Choice::picks), unfolding(port::specs::Sound::held_sound))]
fn held_sound(halted: u8, m: OutMessage) -> bool
    ensures { result ≡ held_sound halted m }
{
    if m.ready == 1 {
        return m.held != 0;
    }
    if halted == 1 {
        return m.held == 0;
    }
    true
}

// Bulk-OUT between transfers. Here and in `in_sound` a guard goes before the last test: with `&&` for it `set-status` is over its limit of speed.
#[tactic(auto, using(rules::proofs::Choice::picks), unfolding(port::specs::Sound::resting_sound))]
fn resting_sound(o: BulkOut) -> bool
    ensures { result ≡ resting_sound o }
{
    if !is_flag(o.halted)
        || !is_flag(o.message.ready)
        || o.transfer.end != 0
        || o.transfer.got != 0
        || STORE < o.message.held
    {
        return false;
    }
    held_sound(o.halted, o.message)
}

#[tactic(auto, using(rules::proofs::Choice::picks), unfolding(port::specs::Sound::out_sound))]
fn out_sound(o: BulkOut) -> bool
    ensures { result ≡ out_sound o }
{
    if o.transfer.left != 0 {
        open_sound(o)
    } else {
        resting_sound(o)
    }
}

// No REQUEST waits for its first packet.
#[tactic(auto, using(rules::proofs::Choice::picks), unfolding(port::specs::Sound::unasked))]
fn unasked(t: InTransfer) -> bool
    ensures { result ≡ unasked t }
{
    t.asked == 0 && t.enabled == 0 && t.term == 0
}

// No data byte of a transfer is on its way.
#[tactic(auto, using(rules::proofs::Choice::picks), unfolding(port::specs::Sound::unsending))]
fn unsending(t: InTransfer) -> bool
    ensures { result ≡ unsending t }
{
    t.left == 0 && t.sent == 0
}

#[tactic(auto, using(rules::proofs::Choice::picks), unfolding(port::specs::Sound::idle))]
fn idle(t: InTransfer) -> bool
    ensures { result ≡ idle t }
{
    unasked(t) && unsending(t)
}

#[tactic(auto, using(rules::proofs::Choice::picks), unfolding(port::specs::Sound::asked_sound))]
fn asked_sound(t: InTransfer) -> bool
    ensures { result ≡ asked_sound t }
{
    t.tag != 0
        && t.asked != 0
        && t.asked <= STORE
        && is_flag(t.enabled)
        && (t.enabled != 0 || t.term == 0)
        && unsending(t)
}

// Of a reply with so many bytes unsent.
#[tactic(auto, using(rules::proofs::Choice::picks), unfolding(port::specs::Sound::sending_sound))]
fn sending_sound(unsent: u16, t: InTransfer) -> bool
    ensures { result ≡ sending_sound unsent t }
{
    t.tag != 0 && t.left <= unsent && t.sent <= STORE && t.left <= STORE - t.sent && unasked(t)
}

#[tactic(auto, using(rules::proofs::Choice::picks), unfolding(port::specs::Sound::phase_sound))]
fn phase_sound(unsent: u16, t: InTransfer) -> bool
    ensures { result ≡ phase_sound unsent t }
{
    match t.phase {
        CLOSED => t.tag == 0 && idle(t),
        ASKED => asked_sound(t),
        SENDING => sending_sound(unsent, t),
        OWED => t.tag != 0 && idle(t),
        _ => false,
    }
}

#[tactic(auto, using(rules::proofs::Choice::picks), unfolding(port::specs::Sound::in_sound))]
fn in_sound(b: BulkIn) -> bool
    ensures { result ≡ in_sound b }
{
    if !is_flag(b.halted) || STORE < b.reply.at || STORE - b.reply.at < b.reply.unsent {
        return false;
    }
    phase_sound(b.reply.unsent, b.transfer)
}

// Bit 6 of a status byte is on.
pub fn asks_service(status: u8) -> bool
    ensures { result ≡ asks_service status }
{
    status & BIT_6 != 0
}

// A packet waits on Interrupt-IN.
#[tactic(auto, using(rules::proofs::Choice::picks))]
pub fn is_waiting(i: InterruptIn) -> bool
    ensures { result ≡ is_waiting i }
{
    i.waiting.notify1 != 0
}

// Of a packet that waits.
#[tactic(auto, using(rules::proofs::Choice::picks), unfolding(port::specs::Sound::packet_sound))]
fn packet_sound(n: Notify) -> bool
    ensures { result ≡ packet_sound n }
{
    if n.notify1 == SERVICE_REQUEST {
        asks_service(n.notify2)
    } else {
        SERVICE_REQUEST < n.notify1 && !asks_service(n.notify2)
    }
}

#[tactic(auto, using(rules::proofs::Choice::picks), unfolding(port::specs::Sound::waiting_sound))]
fn waiting_sound(i: InterruptIn) -> bool
    ensures { result ≡ waiting_sound i }
{
    is_flag(i.halted) && packet_sound(i.waiting)
}

// While no packet waits bit 6 is off.
#[tactic(auto, using(rules::proofs::Choice::picks), unfolding(port::specs::Sound::silent_sound))]
fn silent_sound(i: InterruptIn) -> bool
    ensures { result ≡ silent_sound i }
{
    is_flag(i.halted) && i.waiting.notify2 == 0 && !asks_service(i.status)
}

#[tactic(auto, using(rules::proofs::Choice::picks), unfolding(port::specs::Sound::interrupt_sound))]
fn interrupt_sound(i: InterruptIn) -> bool
    ensures { result ≡ interrupt_sound i }
{
    if is_waiting(i) {
        waiting_sound(i)
    } else {
        silent_sound(i)
    }
}

// A clear in progress.
#[tactic(auto, using(rules::proofs::Choice::picks), unfolding(port::specs::Sound::clear_sound))]
fn clear_sound(o: BulkOut, b: BulkIn) -> bool
    ensures { result ≡ clear_sound o b }
{
    o.halted == 1
        && o.message.held == 0
        && o.recent == 0
        && b.reply.unsent == 0
        && b.recent == 0
        && matches!(b.transfer.phase, CLOSED | OWED)
}

// No empty packet is owed.
#[tactic(auto, using(rules::proofs::Choice::picks), unfolding(port::specs::Sound::not_owed))]
fn not_owed(b: BulkIn) -> bool
    ensures { result ≡ not_owed b }
{
    b.transfer.phase != OWED
}

// An abort of Bulk-OUT in progress.
#[tactic(auto, using(rules::proofs::Choice::picks), unfolding(port::specs::Sound::abort_out_sound))]
fn abort_out_sound(count: u16, o: BulkOut, b: BulkIn) -> bool
    ensures { result ≡ abort_out_sound count o b }
{
    count <= STORE && o.halted == 1 && not_owed(b)
}

#[tactic(auto, unfolding(port::specs::Sound::split_sound))]
fn split_sound(s: Split, o: BulkOut, b: BulkIn) -> bool
    ensures { result ≡ split_sound s o b }
{
    match s {
        Split::None => not_owed(b),
        Split::AbortOut { count } => abort_out_sound(count, o, b),
        Split::AbortIn { count } => count <= STORE,
        Split::Clear => clear_sound(o, b),
    }
}

// Whether a unit is sound.
#[tactic(auto, using(rules::proofs::Choice::picks), unfolding(port::specs::Sound::sound))]
pub fn sound(st: State) -> bool
    ensures { result ≡ sound st }
{
    let small = st.small;
    port_sound(small.port)
        && out_sound(small.bulkout)
        && in_sound(small.bulkin)
        && interrupt_sound(small.interrupt)
        && split_sound(st.split, small.bulkout, small.bulkin)
}
