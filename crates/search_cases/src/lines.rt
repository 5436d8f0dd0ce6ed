// Lines with probes, and states of a bridge in which a search may find them.
use crate::probes;
use bridge::Bridge;

fn with(bridge: Bridge, id: &[u8; 8]) -> Bridge {
    bridge.fit(id).unwrap_or(bridge)
}

pub(crate) fn without(bridge: Bridge, id: &[u8; 8]) -> Bridge {
    bridge.withdraw(id).unwrap_or(bridge)
}

// Withdrawn and fitted again.
pub(crate) fn with_again(bridge: Bridge, id: &[u8; 8]) -> Bridge {
    with(without(bridge, id), id)
}

pub(crate) fn of_two(first: &[u8; 8], second: &[u8; 8]) -> Bridge {
    with(with(Bridge::power_on(), first), second)
}

pub(crate) fn of_three(first: &[u8; 8], second: &[u8; 8], third: &[u8; 8]) -> Bridge {
    with(of_two(first, second), third)
}

pub(crate) fn with_numbered(bridge: Bridge, n: u8) -> Bridge {
    with(bridge, &probes::numbered(n))
}

pub(crate) fn without_numbered(bridge: Bridge, n: u8) -> Bridge {
    without(bridge, &probes::numbered(n))
}

pub(crate) fn of_64() -> Bridge {
    let mut bridge = Bridge::power_on();
    for n in 0..64 {
        bridge = with_numbered(bridge, n);
    }
    bridge
}

// ---- what was before

// A write, and no time.
fn given(bridge: Bridge, bytes: &[u8]) -> Bridge {
    bridge.write(bytes).unwrap_or(bridge)
}

fn rom(bridge: Bridge, code: u8) -> Bridge {
    let reset = pass::command(bridge, b"\xB4");
    pass::command(reset, &[Bridge::WRITE_BYTE, code])
}

// One command so many times.
// As it is: speed has these lines too, but programs share no code; a library for a loop of three lines would be no plainer.
fn repeated(mut bridge: Bridge, times: u8, bytes: &[u8]) -> Bridge {
    for _ in 0..times {
        bridge = pass::command(bridge, bytes);
    }
    bridge
}

pub(crate) fn with_pending(bridge: Bridge) -> Bridge {
    given(rom(bridge, probe::SEARCH_ROM), b"\x78\x80")
}

pub(crate) fn skipped(bridge: Bridge) -> Bridge {
    rom(bridge, probe::SKIP_ROM)
}

// Skip ROM with no 1-Wire reset before it.
pub(crate) fn skipped_unheard(bridge: Bridge) -> Bridge {
    pass::command(bridge, &[Bridge::WRITE_BYTE, probe::SKIP_ROM])
}

// Read ROM and the 64 bits that follow.
pub(crate) fn read_whole(bridge: Bridge) -> Bridge {
    repeated(rom(bridge, probe::READ_ROM), 8, b"\x96")
}

// A code that is none of the five.
pub(crate) fn deafened(bridge: Bridge) -> Bridge {
    rom(bridge, 0x0F)
}

pub(crate) fn resumed(bridge: Bridge) -> Bridge {
    rom(bridge, probe::RESUME)
}

pub(crate) fn configured(bridge: Bridge) -> Bridge {
    pass::command(pass::command(bridge, b"\x96"), b"\xD2\xE1")
}

// Ten triplets of a pass that takes 1 where it can.
pub(crate) fn in_a_pass(bridge: Bridge) -> Bridge {
    repeated(rom(bridge, probe::SEARCH_ROM), 10, b"\x78\x80")
}

// ---- overdrive

fn quick(bridge: Bridge) -> Bridge {
    pass::command(bridge, b"\xD2\x78")
}

// All probes at overdrive, and the bridge.
pub(crate) fn at_overdrive(bridge: Bridge) -> Bridge {
    quick(rom(bridge, probe::OVERDRIVE_SKIP_ROM))
}

// Two in the middle of a pass at overdrive, a third at standard speed, and the bridge there too, after a Device Reset.
pub(crate) fn of_both_speeds(first: &[u8; 8], second: &[u8; 8], third: &[u8; 8]) -> Bridge {
    let fast = in_a_pass(at_overdrive(of_two(first, second)));
    pass::command(with(fast, third), b"\xF0")
}

pub(crate) fn reset_at_overdrive(bridge: Bridge) -> Bridge {
    pass::command(quick(bridge), b"\xB4")
}

// ---- the strong pull-up

// Skip ROM, SPU, and then a byte that is pending and will switch the pull-up on.
pub(crate) fn with_pullup_due(bridge: Bridge) -> Bridge {
    let strong = pass::command(skipped(bridge), b"\xD2\xB4");
    given(strong, b"\xA5\x44")
}

pub(crate) fn with_pullup(bridge: Bridge) -> Bridge {
    with_pullup_due(bridge).wait()
}
