// The stores at work: each kind, and a pair of the two, filled with the states of a row at successive scans.
#![tactic(auto)]

use copies::Copies;
use machine::{Machine, snapshot};
use pages::Pages;
use row::Row;
use std::io;
use store::{Pair, Store};

// The words of a row's state.
const WIDTH: usize = Row::W;

// Puts the row's state into a slot, and says what the store answered.
fn keep<S: Store>(
    rt: &impl Print,
    store: &mut S,
    row: &Row,
    slot: usize,
    scan: u32,
) -> io::Result<()> {
    match store.put(slot, &snapshot(row)[..WIDTH]) {
        Ok(()) => println!(rt; "  scan {scan} into slot {slot}"),
        Err(refusal) => println!(rt; "  scan {scan} into slot {slot}: refused, {refusal}"),
    }
}

fn release<S: Store>(rt: &impl Print, store: &mut S, slot: usize) -> io::Result<()> {
    match store.free(slot) {
        Ok(()) => println!(rt; "  slot {slot} freed"),
        Err(refusal) => println!(rt; "  slot {slot} freed: refused, {refusal}"),
    }
}

fn show_words(rt: &impl Print, slot: usize, words: &[u32]) -> io::Result<()> {
    print!(rt; "  {slot}:")?;
    for word in words {
        print!(rt; " {word:08x}")?;
    }
    println!(rt; "")
}

// Each slot's snapshot, read back; slots have numbers alone, no list stands behind them.
fn show<S: Store>(rt: &impl Print, store: &mut S) -> io::Result<()> {
    for slot in 0..store.capacity() {
        let mut state = [0; WIDTH];
        match store.get(slot, &mut state) {
            Ok(()) => show_words(rt, slot, &state)?,
            Err(refusal) => println!(rt; "  {slot}: refused, {refusal}")?,
        }
    }
    Ok(())
}

// Scans 0 to 3 into slots 0 to 3, slot 1 freed, slot 2 overwritten with scan 4, and a slot that is not there.
fn fill<S: Store>(rt: &impl Print, store: &mut S, row: &mut Row) -> io::Result<()> {
    for (slot, scan) in (0..4).enumerate() {
        keep(rt, store, row, slot, scan)?;
        row.step(0);
    }
    release(rt, store, 1)?;
    keep(rt, store, row, 2, 4)?;
    release(rt, store, 1)?;
    keep(rt, store, row, store.capacity(), 4)
}

fn copies(rt: &impl Print, row: &mut Row) -> io::Result<()> {
    let mut words = [0; 40];
    let mut store = Copies::new(&mut words, WIDTH);
    println!(rt; "full copies")?;
    fill(rt, &mut store, row)?;
    show(rt, &mut store)
}

fn pages(rt: &impl Print, row: &mut Row) -> io::Result<()> {
    let mut words = [0; 40];
    let mut store = Pages::new(&mut words, WIDTH);
    println!(rt; "shared pages")?;
    fill(rt, &mut store, row)?;
    let used = store.pages_used();
    let free = store.pages_free();
    println!(rt; "  pages used {used}, free {free}")?;
    show(rt, &mut store)
}

fn pair(rt: &impl Print, row: &mut Row) -> io::Result<()> {
    let mut words = [0; 16];
    let mut pool = [0; 24];
    let mut store = Pair::new(Copies::new(&mut words, WIDTH), Pages::new(&mut pool, WIDTH));
    println!(rt; "a pair of the two")?;
    fill(rt, &mut store, row)?;
    show(rt, &mut store)
}

fn main(rt: HostRuntime) -> io::Result<()> {
    let mut row = Row::new(90).unwrap();
    row.set_cell(60, 1).unwrap();
    copies(&rt, &mut row)?;
    pages(&rt, &mut row)?;
    pair(&rt, &mut row)
}
