// A long random run of each kind of store against a plain list of slots, every answer and every buffer compared.
#![tactic(auto)]

mod plain;
mod trial;

use crate::plain::{MOST, WIDTH, different};
use crate::trial::Trial;
use copies::Copies;
use pages::Pages;
use std::io;
use store::{Pair, Store};

// The rounds of a run.
const ROUNDS: u32 = 200;

// A count as a word; as in session_stress: one line, no crate of its own.
fn number(count: usize) -> u32 {
    u32::try_from(count).unwrap_or(u32::MAX)
}

// Some rounds of one store, and a question about it after each.
fn run<S: Store, F: Fn(&mut Trial<'_, S>)>(
    rt: &impl Print,
    name: &str,
    store: &mut S,
    seed: u32,
    ask: F,
) -> io::Result<()>
    requires { F.IsAlwaysCallable ask }
{
    let mut plain = [None; MOST];
    let mut trial = Trial::new(store, &mut plain, seed);
    for _ in 0..ROUNDS {
        trial.round();
        ask(&mut trial);
    }
    let slots = trial.store.capacity();
    let tally = &trial.tally;
    println!(rt; "{name}: {slots} slots, {tally}")
}

fn run_copies(rt: &impl Print) -> io::Result<()> {
    let mut room = [0; 60];
    let mut store = Copies::new(&mut room, WIDTH);
    run(rt, "copies", &mut store, 1, |_| {})
}

// A store of pages is asked how many of its pages are used, and how many are not.
fn run_pages(rt: &impl Print) -> io::Result<()> {
    let mut pool = [0; 130];
    let whole = number(pool.len() / 4);
    let mut store = Pages::new(&mut pool, WIDTH);
    run(rt, "pages", &mut store, 2, |trial| {
        let expected = different(trial.plain);
        let used = number(trial.store.pages_used());
        let free = number(trial.store.pages_free());
        trial.tally.compare(used, expected);
        trial.tally.compare(free, whole.saturating_sub(expected));
    })
}

fn run_pair(rt: &impl Print) -> io::Result<()> {
    let mut room = [0; 31];
    let mut pool = [0; 64];
    let mut store = Pair::new(Copies::new(&mut room, WIDTH), Pages::new(&mut pool, WIDTH));
    run(rt, "pair", &mut store, 3, |_| {})
}

fn run_pair_of_pairs(rt: &impl Print) -> io::Result<()> {
    let mut room = [0; 31];
    let mut pool = [0; 64];
    let mut second_room = [0; 24];
    let mut second_pool = [0; 41];
    let first = Pair::new(Copies::new(&mut room, WIDTH), Pages::new(&mut pool, WIDTH));
    let second = Pair::new(
        Pages::new(&mut second_pool, WIDTH),
        Copies::new(&mut second_room, WIDTH),
    );
    let mut store = Pair::new(first, second);
    run(rt, "pair of pairs", &mut store, 4, |_| {})
}

fn main(rt: HostRuntime) -> io::Result<()> {
    run_copies(&rt)?;
    run_pages(&rt)?;
    run_pair(&rt)?;
    run_pair_of_pairs(&rt)
}
