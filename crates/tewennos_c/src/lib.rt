// The functions of include/tewennos.h, exported for C: each calls the one of its name in crate tewennos, and promises what that one promises.
#![tactic(auto)]

ghost use Rattle.std.specs.Prelude.{length};
ghost use Rattle.port.specs.Device.{power_on};
ghost use Rattle.port.specs.Step.{quiet, in_poll, interrupt_poll, offer_reply, set_status, front_panel};
ghost use Rattle.port.specs.Step.{bus_suspend, out_packet, take_into, bus_reset, setup_of};
ghost use Rattle.c_promise.specs.Promise.{result_bytes, on_bytes, Returns, Fills};

use c_bytes::places::UNIT;
use c_promise::types::TmcAnswer;

#[unsafe(no_mangle)]
pub extern "C" fn tmc_power_on(u: &mut [u8; UNIT], packet: u16) -> TmcAnswer
    ensures { Returns (result_bytes (power_on (record { packet = packet }))) u.new result }
{
    tewennos::tmc_power_on(u, packet)
}

#[unsafe(no_mangle)]
pub extern "C" fn tmc_setup(u: &mut [u8; UNIT], s: &[u8], b: &mut [u8]) -> TmcAnswer
    ensures { Fills (on_bytes u.old (setup_of s.now (length b.old))) b.old b.new
        u.new result }
{
    tewennos::tmc_setup(u, s, b)
}

#[unsafe(no_mangle)]
pub extern "C" fn tmc_bulk_out(u: &mut [u8; UNIT], s: &[u8]) -> TmcAnswer
    ensures { Returns (on_bytes u.old (out_packet s.now)) u.new result }
{
    tewennos::tmc_bulk_out(u, s)
}

#[unsafe(no_mangle)]
pub extern "C" fn tmc_bulk_in(u: &mut [u8; UNIT], b: &mut [u8]) -> TmcAnswer
    ensures { Fills (on_bytes u.old (quiet (in_poll (length b.old)))) b.old b.new u.new result }
{
    tewennos::tmc_bulk_in(u, b)
}

#[unsafe(no_mangle)]
pub extern "C" fn tmc_interrupt_in(u: &mut [u8; UNIT], b: &mut [u8]) -> TmcAnswer
    ensures { Fills (on_bytes u.old (quiet (interrupt_poll (length b.old)))) b.old b.new u.new result }
{
    tewennos::tmc_interrupt_in(u, b)
}

#[unsafe(no_mangle)]
pub extern "C" fn tmc_take(u: &mut [u8; UNIT], b: &mut [u8]) -> TmcAnswer
    ensures { Fills (on_bytes u.old (take_into (length b.old))) b.old b.new u.new result }
{
    tewennos::tmc_take(u, b)
}

#[unsafe(no_mangle)]
pub extern "C" fn tmc_offer(u: &mut [u8; UNIT], bytes: &[u8]) -> TmcAnswer
    ensures { Returns (on_bytes u.old (quiet (offer_reply bytes.now))) u.new result }
{
    tewennos::tmc_offer(u, bytes)
}

#[unsafe(no_mangle)]
pub extern "C" fn tmc_set_status(u: &mut [u8; UNIT], status: u8) -> TmcAnswer
    ensures { Returns (on_bytes u.old (quiet (set_status status))) u.new result }
{
    tewennos::tmc_set_status(u, status)
}

#[unsafe(no_mangle)]
pub extern "C" fn tmc_panel(u: &mut [u8; UNIT]) -> TmcAnswer
    ensures { Returns (on_bytes u.old (quiet front_panel)) u.new result }
{
    tewennos::tmc_panel(u)
}

#[unsafe(no_mangle)]
pub extern "C" fn tmc_bus_reset(u: &mut [u8; UNIT]) -> TmcAnswer
    ensures { Returns (on_bytes u.old bus_reset) u.new result }
{
    tewennos::tmc_bus_reset(u)
}

#[unsafe(no_mangle)]
pub extern "C" fn tmc_suspend(u: &mut [u8; UNIT]) -> TmcAnswer
    ensures { Returns (on_bytes u.old (quiet bus_suspend)) u.new result }
{
    tewennos::tmc_suspend(u)
}
