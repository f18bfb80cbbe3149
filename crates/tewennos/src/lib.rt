// The port as C calls it: include/tewennos.h says what each function is for. A unit is bytes in C's memory, altered where they stand. Crate tewennos_c
// exports the functions, each under its name here: C can call no method, and no crate can export what another has.
#![tactic(auto)]

ghost use Rattle.std.specs.Prelude.{length};
ghost use Rattle.port.specs.Device.{power_on};
ghost use Rattle.port.specs.Step.{quiet, in_poll, interrupt_poll, offer_reply, set_status, front_panel};
ghost use Rattle.port.specs.Step.{bus_suspend, out_packet, take_into, bus_reset, setup_of};
ghost use Rattle.c_promise.specs.Promise.{result_bytes, on_bytes, Returns, Fills};

use c_bus::{bus_reset, power_on, suspend};
use c_bytes::places::UNIT;
use c_in::interrupt::interrupt_in;
use c_in::poll::bulk_in;
use c_out::packet::bulk_out;
use c_promise::types::TmcAnswer;
use c_setup::setup::setup;
use c_thermostat::{offer, panel, set_status, take};

pub fn tmc_power_on(u: &mut [u8; UNIT], packet: u16) -> TmcAnswer
    ensures { Returns (result_bytes (power_on (record { packet = packet }))) u.new result }
{
    power_on(u, packet)
}

pub fn tmc_setup(u: &mut [u8; UNIT], s: &[u8], b: &mut [u8]) -> TmcAnswer
    ensures { Fills (on_bytes u.old (setup_of s.now (length b.old))) b.old b.new
        u.new result }
{
    setup(u, s, b)
}

pub fn tmc_bulk_out(u: &mut [u8; UNIT], s: &[u8]) -> TmcAnswer
    ensures { Returns (on_bytes u.old (out_packet s.now)) u.new result }
{
    bulk_out(u, s)
}

pub fn tmc_bulk_in(u: &mut [u8; UNIT], b: &mut [u8]) -> TmcAnswer
    ensures { Fills (on_bytes u.old (quiet (in_poll (length b.old)))) b.old b.new u.new result }
{
    bulk_in(u, b)
}

pub fn tmc_interrupt_in(u: &mut [u8; UNIT], b: &mut [u8]) -> TmcAnswer
    ensures { Fills (on_bytes u.old (quiet (interrupt_poll (length b.old)))) b.old b.new u.new result }
{
    interrupt_in(u, b)
}

pub fn tmc_take(u: &mut [u8; UNIT], b: &mut [u8]) -> TmcAnswer
    ensures { Fills (on_bytes u.old (take_into (length b.old))) b.old b.new u.new result }
{
    take(u, b)
}

pub fn tmc_offer(u: &mut [u8; UNIT], bytes: &[u8]) -> TmcAnswer
    ensures { Returns (on_bytes u.old (quiet (offer_reply bytes.now))) u.new result }
{
    offer(u, bytes)
}

pub fn tmc_set_status(u: &mut [u8; UNIT], status: u8) -> TmcAnswer
    ensures { Returns (on_bytes u.old (quiet (set_status status))) u.new result }
{
    set_status(u, status)
}

pub fn tmc_panel(u: &mut [u8; UNIT]) -> TmcAnswer
    ensures { Returns (on_bytes u.old (quiet front_panel)) u.new result }
{
    panel(u)
}

pub fn tmc_bus_reset(u: &mut [u8; UNIT]) -> TmcAnswer
    ensures { Returns (on_bytes u.old bus_reset) u.new result }
{
    bus_reset(u)
}

pub fn tmc_suspend(u: &mut [u8; UNIT]) -> TmcAnswer
    ensures { Returns (on_bytes u.old (quiet bus_suspend)) u.new result }
{
    suspend(u)
}
