// The search's cases of document 01, "Tried on paper", and of what it leaves to be tried, run through the calls. Each line of the
// output is one search: what it answers, the status afterwards, and the IDs, family code first. Before a search every byte of its list
// is EEh.
#![tactic(auto)]

mod lines;
mod probes;
mod show;

use bridge::Bridge;
use probes::{A, B, C};
use std::io;

// Searches of a line, each from the state that the one before it left.
fn paper(rt: &impl Print) -> io::Result<()> {
    let bridge = lines::of_three(&A, &B, &C);
    let none = show::search(rt, "A, B, C, b = 0", bridge, 0)?;
    let one = show::search(rt, "A, B, C, b = 1", none, 1)?;
    let two = show::search(rt, "A, B, C, b = 2", one, 2)?;
    let three = show::search(rt, "A, B, C, b = 3", two, 3)?;
    show::search(rt, "A, B, C, b = 4", three, 4)?;
    let empty = Bridge::power_on();
    show::search(rt, "no probe, b = 0", empty, 0)?;
    show::search(rt, "no probe, b = 1", empty, 1)?;
    show::search(rt, "no probe, b = 65535", empty, 65535)?;
    Ok(())
}

fn full(rt: &impl Print) -> io::Result<()> {
    let bridge = lines::of_64();
    show::ends(rt, "64 probes, b = 1", bridge, 1)?;
    show::ends(rt, "64 probes, b = 63", bridge, 63)?;
    show::ends(rt, "64 probes, b = 64", bridge, 64)?;
    show::ends(rt, "64 probes, b = 65535", bridge, 65535)?;
    Ok(())
}

// IDs that are far apart and near each other in search order. With a right CRC no two differ in one bit alone.
fn near(rt: &impl Print) -> io::Result<()> {
    show::search(
        rt,
        "bit 0 and the CRC differ",
        lines::of_two(&probes::ODD, &probes::EVEN),
        3,
    )?;
    show::search(
        rt,
        "bits 55, 58, 59 and 63 differ",
        lines::of_two(&probes::HIGH, &probes::LOW),
        3,
    )?;
    Ok(())
}

// What the bridge and the line were doing before does not matter.
fn before(rt: &impl Print) -> io::Result<()> {
    let bridge = lines::of_three(&A, &B, &C);
    show::search(rt, "a triplet pending", lines::with_pending(bridge), 3)?;
    show::search(rt, "in the middle of a pass", lines::in_a_pass(bridge), 3)?;
    show::search(rt, "after Skip ROM", lines::skipped(bridge), 3)?;
    show::search(
        rt,
        "after a configuration and a read",
        lines::configured(bridge),
        3,
    )?;
    Ok(())
}

// The list: at the bound, one byte shorter, and longer. The first 40 bytes of a buffer of 512 are shown.
fn lists(rt: &impl Print) -> io::Result<()> {
    let bridge = lines::of_three(&A, &B, &C);
    show::room(rt, "b = 2, list of 16 bytes", bridge, 2, 16)?;
    show::room(
        rt,
        "b = 2, list of 15 bytes",
        lines::with_pending(bridge),
        2,
        15,
    )?;
    show::room(rt, "b = 3, list of 40 bytes", bridge, 3, 40)?;
    show::room(rt, "b = 65535, list of 512 bytes", bridge, 65535, 512)?;
    show::room(rt, "b = 65535, list of 511 bytes", bridge, 65535, 511)?;
    show::room(rt, "b = 64, list of 511 bytes", bridge, 64, 511)?;
    show::room(rt, "b = 63, list of 504 bytes", bridge, 63, 504)?;
    show::room(rt, "b = 0, list of no bytes", bridge, 0, 0)?;
    Ok(())
}

// What a Resume selects, directly after a search.
fn resumed(rt: &impl Print) -> io::Result<()> {
    let bridge = lines::of_three(&A, &B, &C);
    show::resumed(rt, "Resume after b = 0", show::found(bridge, 0))?;
    show::resumed(rt, "Resume after b = 1", show::found(bridge, 1))?;
    show::resumed(rt, "Resume after b = 2", show::found(bridge, 2))?;
    show::resumed(rt, "Resume after b = 3", show::found(bridge, 3))?;
    show::resumed(rt, "Resume after b = 65535", show::found(bridge, 65535))?;
    show::resumed(
        rt,
        "Resume after a search of the line of 64",
        show::found(lines::of_64(), 64),
    )?;
    Ok(())
}

// What a Resume selects where another ROM command comes between (document 02, R-5).
fn between(rt: &impl Print) -> io::Result<()> {
    let found = show::found(lines::of_three(&A, &B, &C), 3);
    let deaf = lines::deafened(found);
    show::resumed(rt, "Resume after b = 3 and Skip ROM", lines::skipped(found))?;
    show::resumed(
        rt,
        "Resume after b = 3 and Read ROM",
        lines::read_whole(found),
    )?;
    show::resumed(rt, "Resume after b = 3 and an unknown code", deaf)?;
    show::resumed(
        rt,
        "Resume after b = 3 and a Skip ROM that finds all deaf",
        lines::skipped_unheard(deaf),
    )?;
    show::resumed(
        rt,
        "Resume after b = 3 and a Skip ROM that finds it selected",
        lines::skipped_unheard(found),
    )?;
    show::resumed(rt, "Resume after b = 3 and Resume", lines::resumed(found))?;
    Ok(())
}

// What a Resume selects where a probe is withdrawn directly after the search (document 02, R-3).
fn withdrawn(rt: &impl Print) -> io::Result<()> {
    let bridge = lines::of_three(&A, &B, &C);
    let one = show::found(bridge, 1);
    let all = show::found(bridge, 3);
    show::resumed(
        rt,
        "Resume after b = 1, C withdrawn",
        lines::without(one, &C),
    )?;
    show::resumed(
        rt,
        "Resume after b = 1, A withdrawn",
        lines::without(one, &A),
    )?;
    show::resumed(
        rt,
        "Resume after b = 3, A withdrawn",
        lines::without(all, &A),
    )?;
    show::resumed(
        rt,
        "Resume after b = 3, B withdrawn",
        lines::without(all, &B),
    )?;
    show::resumed(
        rt,
        "Resume after b = 3, A withdrawn and fitted again",
        lines::with_again(all, &A),
    )?;
    show::resumed(
        rt,
        "Resume after a search of the line of 64, number 62 withdrawn",
        lines::without_numbered(show::found(lines::of_64(), 64), 62),
    )?;
    Ok(())
}

// Searches of a line of three from which probes were withdrawn.
fn fewer(rt: &impl Print) -> io::Result<()> {
    let bridge = lines::of_three(&A, &B, &C);
    let without_b = lines::without(bridge, &B);
    show::search(rt, "B withdrawn, b = 3", without_b, 3)?;
    show::search(rt, "B withdrawn, b = 1", without_b, 1)?;
    let alone = lines::without(without_b, &C);
    show::search(rt, "B and C withdrawn, b = 3", alone, 3)?;
    show::search(rt, "all withdrawn, b = 3", lines::without(alone, &A), 3)?;
    show::search(
        rt,
        "A withdrawn in the middle of a pass",
        lines::without(lines::in_a_pass(bridge), &A),
        3,
    )?;
    show::search(
        rt,
        "C withdrawn while a triplet is pending",
        lines::without(lines::with_pending(bridge), &C),
        3,
    )?;
    Ok(())
}

// A probe of the line of 64 withdrawn, then another in its room; and the last one listed.
fn swapped(rt: &impl Print) -> io::Result<()> {
    let bridge = lines::of_64();
    let without_30 = lines::without_numbered(bridge, 30);
    show::ends(rt, "64 probes, number 30 withdrawn, b = 64", without_30, 64)?;
    show::ends(
        rt,
        "number 64 in its room, b = 64",
        lines::with_numbered(without_30, 64),
        64,
    )?;
    show::ends(
        rt,
        "64 probes, the last listed withdrawn, b = 64",
        lines::without_numbered(bridge, 62),
        64,
    )?;
    Ok(())
}

// Whatever the speeds were, all are found, and no probe is left at overdrive where a search has issued anything (document 02, R-2).
fn overdrive(rt: &impl Print) -> io::Result<()> {
    let all = lines::at_overdrive(lines::of_three(&A, &B, &C));
    show::search(rt, "all at overdrive, and the bridge", all, 3)?;
    show::search(
        rt,
        "A and B at overdrive, C not, nor the bridge",
        lines::of_both_speeds(&A, &B, &C),
        3,
    )?;
    let found = show::found(all, 2);
    show::resumed(rt, "all at overdrive, Resume after b = 2", found)?;
    show::presence(rt, "all at overdrive, a reset there after b = 2", found)?;
    show::presence(
        rt,
        "all at overdrive, a reset there after b = 0",
        show::found(all, 0),
    )?;
    Ok(())
}

// The Device Reset of a search ends the strong pull-up, or drops what would switch it on; b = 0 issues none (document 02, R-12).
fn pullup(rt: &impl Print) -> io::Result<()> {
    let bridge = lines::of_three(&A, &B, &C);
    let on = lines::with_pullup(bridge);
    show::search(rt, "the strong pull-up on", on, 3)?;
    show::search(
        rt,
        "SPU set and a Write Byte pending",
        lines::with_pullup_due(bridge),
        3,
    )?;
    show::pullup(rt, "the strong pull-up on, after b = 3", show::found(on, 3))?;
    show::pullup(rt, "the strong pull-up on, after b = 0", show::found(on, 0))?;
    Ok(())
}

fn main(rt: HostRuntime) -> io::Result<()> {
    paper(&rt)?;
    full(&rt)?;
    near(&rt)?;
    before(&rt)?;
    lists(&rt)?;
    resumed(&rt)?;
    between(&rt)?;
    withdrawn(&rt)?;
    fewer(&rt)?;
    swapped(&rt)?;
    overdrive(&rt)?;
    pullup(&rt)
}
