// Machines of the literature, run until they rest: busy beavers from the middle of an empty tape, and a binary counter.
#![tactic(auto)]

use machine::{Counter, Machine};
use std::io;
use tabletext::read_tape;
use tape::{Entry, Move, REST, Tape};

// More steps than any of these machines makes.
const LIMIT: u32 = 1000;

// An entry as the line of a table: the control and the symbol that is read; the symbol written, the move, the next control.
type Line = (u32, u32, u32, Move, u32);

fn entry((control, read, write, motion, next): Line) -> Entry {
    Entry::new(control, read, write, motion, next)
}

const TWO: [Line; 4] = [
    (0, 0, 1, Move::Right, 1),
    (0, 1, 1, Move::Left, 1),
    (1, 0, 1, Move::Left, 0),
    (1, 1, 1, Move::Right, REST),
];

const MOST_ONES: [Line; 6] = [
    (0, 0, 1, Move::Right, 1),
    (0, 1, 1, Move::Right, REST),
    (1, 0, 0, Move::Right, 2),
    (1, 1, 1, Move::Right, 1),
    (2, 0, 1, Move::Left, 2),
    (2, 1, 1, Move::Left, 0),
];

const MOST_STEPS: [Line; 6] = [
    (0, 0, 1, Move::Right, 1),
    (0, 1, 1, Move::Right, REST),
    (1, 0, 1, Move::Left, 1),
    (1, 1, 0, Move::Right, 2),
    (2, 0, 1, Move::Left, 2),
    (2, 1, 1, Move::Left, 0),
];

const FOUR: [Line; 8] = [
    (0, 0, 1, Move::Right, 1),
    (0, 1, 1, Move::Left, 1),
    (1, 0, 1, Move::Left, 0),
    (1, 1, 0, Move::Left, 2),
    (2, 0, 1, Move::Right, REST),
    (2, 1, 1, Move::Left, 3),
    (3, 0, 1, Move::Right, 3),
    (3, 1, 0, Move::Right, 0),
];

// The binary counter of the documentation: it adds one to a number whose lowest digit is under the head.
const COUNTER: &[u8; 76] =
    b"states 2\n# carry\n0 0 1 R 1\n0 1 0 L 0\n# back\n1 0 0 R 1\n1 1 1 R 1\n1 2 2 L 255\n";

// Runs a tape from a state until it rests: the steps that it made, and the state that it came to.
fn run(tape: Tape, start: [u32; 10]) -> Option<(u64, [u32; 10])> {
    let mut machine = Counter::new(tape);
    let mut words = start;
    machine.load(&words).ok()?;
    for _ in 0..LIMIT {
        if words[0] == REST {
            break;
        }
        machine.step(0);
        machine.save(&mut words).ok()?;
    }
    Some((machine.count(), words))
}

// Runs a table from the middle of an empty tape: the steps that it made, and the ones that it left.
fn beaver(states: u32, table: &[Entry]) -> Option<(u64, u32)> {
    let mut tape = Tape::new(states).ok()?;
    tape.set_table(table).ok()?;
    let (steps, words) = run(tape, [0, 64, 0, 0, 0, 0, 0, 0, 0, 0])?;
    // a fold: sum is no plainer, since it asks for a proof that the ones fit
    let ones = words[2..]
        .iter()
        .fold(0u32, |ones, word| ones.saturating_add(word.count_ones()));
    Some((steps, ones))
}

// Adds one to 3, in cells 62 and 63, with the mark behind them.
fn count_up() -> Option<(u64, u32)> {
    let tape = read_tape(COUNTER).ok()?;
    let (steps, words) = run(tape, [0, 63, 0, 0, 0, 0x5000_0000, 2, 0, 0, 0])?;
    Some((steps, words[5]))
}

fn show(rt: &impl Print, name: &str, ran: Option<(u64, u32)>) -> io::Result<()> {
    match ran {
        Some((steps, ones)) => println!(rt; "{name}: {steps} steps, {ones} ones"),
        None => println!(rt; "{name}: refused"),
    }
}

fn main(rt: HostRuntime) -> io::Result<()> {
    show(&rt, "two states", beaver(2, &TWO.map(entry)))?;
    show(
        &rt,
        "three states, most ones",
        beaver(3, &MOST_ONES.map(entry)),
    )?;
    show(
        &rt,
        "three states, most steps",
        beaver(3, &MOST_STEPS.map(entry)),
    )?;
    show(&rt, "four states", beaver(4, &FOUR.map(entry)))?;
    match count_up() {
        Some((steps, word)) => println!(rt; "counter: {steps} steps, {word:08x}"),
        None => println!(rt; "counter: refused"),
    }
}
