// A status byte that is set, one that is read, and a packet that is polled.
ghost use Rattle.std.specs.Prelude.{◌≡◌, ℕ};
ghost use Rattle.port.specs.Interrupt.{without_bit_6, notified, status_held, polled, status_queued};

use port::types::{BIT_6, InterruptIn, Notify, SERVICE_REQUEST, TOP_BIT};
use state_parts::parts::{no_packet, with_status, with_waiting};
use state_sound::sound::{asks_service, is_waiting};

fn without_bit_6(status: u8) -> u8
    ensures { result ≡ without_bit_6 status }
{
    status & !BIT_6
}

// With no packet waiting: a service request is queued where bit 6 is on.
fn notified(i: InterruptIn) -> InterruptIn
    ensures { result ≡ notified i }
{
    if asks_service(i.status) {
        let waiting = Notify {
            notify1: SERVICE_REQUEST,
            notify2: i.status,
        };
        return with_waiting(with_status(i, without_bit_6(i.status)), waiting);
    }
    i
}

// The thermostat sets its status byte: while a packet waits, bit 6 stays on and keeps the request.
pub fn status_held(i: InterruptIn, status: u8) -> InterruptIn
    ensures { result ≡ status_held i status }
{
    let held = with_status(i, status);
    if is_waiting(i) {
        return held;
    }
    notified(held)
}

// The packet is polled, and a request that was kept takes its place.
pub fn polled(i: InterruptIn) -> InterruptIn
    ensures { result ≡ polled i }
{
    let emptied = with_waiting(i, no_packet());
    notified(emptied)
}

// READ_STATUS_BYTE queues the status byte behind its tag.
pub fn status_queued(i: InterruptIn, tag: u8) -> InterruptIn
    ensures { result ≡ status_queued i tag }
{
    let waiting = Notify {
        notify1: TOP_BIT | tag,
        notify2: i.status,
    };
    with_waiting(i, waiting)
}
