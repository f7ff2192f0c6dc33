// Stores: full copies, shared pages and pairs.
use crate::line::report;
use copies::Copies;
use pages::Pages;
use std::io;
use store::{Pair, Store};

pub(crate) fn checks(rt: &HostRuntime) -> io::Result<()> {
    report(rt, "full copies of width 0", Copies::check(&[0; 8], 0))?;
    report(rt, "full copies of width 33", Copies::check(&[0; 8], 33))?;
    report(
        rt,
        "full copies of width 9 in 8 words",
        Copies::check(&[0; 8], 9),
    )?;
    report(
        rt,
        "full copies of width 8 in 8 words",
        Copies::check(&[0; 8], 8),
    )?;
    report(rt, "pages of width 33", Pages::check(&[0; 8], 33))?;
    report(
        rt,
        "pages of width 9 in two pages",
        Pages::check(&[0; 8], 9),
    )?;
    report(
        rt,
        "pages of width 8 in two pages",
        Pages::check(&[0; 8], 8),
    )?;
    report(rt, "1,025 pages", Pages::check(&[0; 4100], 8))?;
    report(rt, "1,024 pages", Pages::check(&[0; 4099], 8))
}

pub(crate) fn slots<T: Store>(rt: &HostRuntime, store: &mut T) -> io::Result<()> {
    report(rt, "2 words into slot 2 of 2", store.put(2, &[1, 2]))?;
    report(rt, "3 words into slot 2 of 2", store.put(2, &[1, 2, 3]))?;
    report(rt, "3 words into slot 0", store.put(0, &[1, 2, 3]))?;
    report(
        rt,
        "slot 0 read while it is empty",
        store.get(0, &mut [0; 2]),
    )?;
    report(
        rt,
        "slot 0 read into 3 words while it is empty",
        store.get(0, &mut [0; 3]),
    )?;
    report(rt, "slot 0 freed while it is empty", store.free(0))?;
    report(rt, "2 words into slot 0", store.put(0, &[1, 2]))?;
    report(rt, "slot 0 read", store.get(0, &mut [0; 2]))?;
    report(rt, "slot 2 read", store.get(2, &mut [0; 2]))?;
    report(rt, "slot 0 freed", store.free(0))?;
    report(rt, "slot 2 freed", store.free(2))
}

pub(crate) fn kinds(rt: &HostRuntime) -> io::Result<()> {
    let mut words = [0u32; 4];
    slots(rt, &mut Copies::new(&mut words, 2))?;
    let mut pool = [0u32; 8];
    slots(rt, &mut Pages::new(&mut pool, 2))
}

pub(crate) fn pairs(rt: &HostRuntime) -> io::Result<()> {
    let mut narrow = [0u32; 8];
    let mut wide = [0u32; 8];
    report(
        rt,
        "a pair of widths 1 and 2",
        Pair::check(&Copies::new(&mut narrow, 1), &Copies::new(&mut wide, 2)),
    )?;
    let mut many = [0u32; 64];
    let mut one = [0u32; 1];
    report(
        rt,
        "a pair of 65 slots",
        Pair::check(&Copies::new(&mut many, 1), &Copies::new(&mut one, 1)),
    )
}
