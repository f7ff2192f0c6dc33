// The command line.
use crate::trouble::Trouble;
use std::alloc::Global;
use std::env::Args;

// The machine: a row with a rule and the start cells that are 1, or a tape by its table's file.
#[derive(Drop)]
pub enum Kind {
    Row { rule: u32, cells: Vec<u32> },
    Tape { table: String },
}

// What a call asks for: a machine and the recording's file.
#[derive(Drop)]
pub struct Call {
    pub kind: Kind,
    pub recording: String,
}

fn number(text: String) -> Result<u32, Trouble> {
    text.as_str().parse().map_err(|_| Trouble::NoNumber(text))
}

// `row RULE RECORDING [CELL ..]`, from the rule on.
fn asked_row(heap: Global, rule: String, recording: String, args: Args) -> Result<Call, Trouble> {
    Ok(Call {
        kind: Kind::Row {
            rule: number(rule)?,
            cells: args.map(number).try_collect(heap)?,
        },
        recording,
    })
}

// The words of a command line, the program's own name first.
pub(crate) fn asked(heap: Global, mut args: Args) -> Result<Call, Trouble> {
    let _name = args.next();
    let kind = args.next().ok_or(Trouble::Usage)?;
    let program = args.next().ok_or(Trouble::Usage)?;
    let recording = args.next().ok_or(Trouble::Usage)?;
    match kind.as_str() {
        "row" => asked_row(heap, program, recording, args),
        "tape" => Ok(Call {
            kind: Kind::Tape { table: program },
            recording,
        }),
        _ => Err(Trouble::NoKind(kind)),
    }
}
