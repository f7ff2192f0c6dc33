// The row: an elementary cellular automaton on a ring of 256 cells.
#![tactic(auto)]

ghost use Rattle.std.specs.Prelude.{◌≡◌, ℕ, ◌*◌, ◌<◌, ◌≤◌, length, replicate, IfErr, IfOk, OnErr, OnOk};
ghost use Rattle.std.proofs.Common.{arith};
ghost use Rattle.row.specs.Cells.{Steps, Succeeds, bit, bit_at, bits, cell, given, lawful, next, outcome, placed, setting, wide};
ghost use Rattle.row.specs.Examples.{Lone};
ghost use Rattle.row.specs.Laws.{lawful_sized, next_lawful, next_read, packed_lawful};
ghost use Rattle.terms.specs.declared.Refusal.TheVariants.{OutOfLimits};

use machine::Machine;
use std::array::from_fn;
use terms::Refusal;

/// A row under one of Wolfram's 256 elementary rules.
#[derive(Drop)]
pub struct Row {
    rule: u32,
    cells: [bool; 256],
    ghost ring: { length cells ≡ 256 },
}

impl Row {
    ghost use Rattle.row.specs.Rows.{rule_of, state_of};

    /// A row of zeros under a rule from 0 to 255.
    pub fn new(rule: u32) -> Result<Row, Refusal>
        ensures taken { OnOk result (rule ≤ 255) }
        ensures rule { IfOk result (λ row. rule_of row ≡ rule) }
        ensures zeros { IfOk result (λ row. state_of row ≡ replicate 8 0) }
        ensures past { OnErr result (255 < rule) }
        ensures refused { IfErr result (λ e. e ≡ OutOfLimits) }
    {
        if rule > 255 {
            return Err(Refusal::OutOfLimits);
        }
        Ok(Row {
            rule,
            cells: [false; 256],
        })
    }

    /// Sets a start cell.
    pub fn set_cell(&mut self, cell: u32, value: u32) -> Result<(), Refusal>
        ensures value { result ≡ setting cell value }
        ensures after { state_of self.new ≡ placed cell value (state_of self.old) }
        ensures rule { rule_of self.new ≡ rule_of self.old }
    {
        if cell > 255 {
            return Err(Refusal::NoCell);
        }
        if value > 1 {
            return Err(Refusal::BadSymbol);
        }
        self.cells[cell as usize] = value == 1;
        Ok(())
    }

    // An address from 1 to 256 names the cell that takes the value mod 2.
    fn write(&mut self, input: u32)
        ensures places { (c : ℕ) → c < 256 → bit_at self.new.cells c ≡ given (state_of self.old) input c }
        ensures rule { rule_of self.new ≡ rule_of self.old }
    {
        let address = machine::address(input);
        let value = machine::value(input);
        match address {
            1..=256 => self.cells[(address - 1) as usize] = value % 2 == 1,
            _ => {}
        }
    }
}

// The outcome of a neighbourhood: bit 4L + 2M + R of the rule number.
fn successor(rule: u32, left: bool, middle: bool, right: bool) -> bool
    ensures { bit result ≡ outcome rule (bit left) (bit middle) (bit right) }
{
    let neighbourhood = 4 * u32::from(left) + 2 * u32::from(middle) + u32::from(right);
    (rule >> neighbourhood) % 2 == 1
}

// Every cell's successor, all read before any is written.
fn advanced(rule: u32, old: &[bool; 256]) -> [bool; 256]
    ensures length { length result ≡ 256 }
    ensures places { Succeeds rule old.now result }
{
    from_fn(|c| successor(rule, old[(c + 255) % 256], old[c], old[(c + 1) % 256]))
}

// Word k of the cells, from its highest bit down.
fn packed_word(cells: &[bool; 256], k: usize) -> u32
    requires { k < 8 }
    ensures { result ≡ bits (bit_at cells.now) (32 * k) 32 }
{
    cells[32 * k..32 * k + 32]
        .iter()
        .rev()
        .fold(0, |w: u32, cell| (w << 1) + u32::from(*cell))
}

// Cell c of eight words.
fn unpacked_cell(words: &[u32], c: usize) -> bool
    requires words { length words.now ≡ 8 }
    requires cell { c < 256 }
    ensures { bit result ≡ cell words.now c }
{
    (words[c / 32] >> (c % 32)) % 2 == 1
}

impl Machine for Row {
    ghost use Rattle.row.specs.Rows.{rule_of, state_of};

    const W: usize = 8;

    ghost W = { wide };

    ghost state = { λ r. state_of r };

    ghost next = { λ r. next (rule_of r) };

    ghost lawful = { λ r. lawful };

    fn step(&mut self, input: u32)
        ensures moves { state_of self.new ≡ next (rule_of self.old) (state_of self.old) input }
        ensures rule { next (rule_of self.new) ≡ next (rule_of self.old) }
        ensures law { lawful ≡ lawful }
        ensures cells { Steps (rule_of self.old) (state_of self.old) input (state_of self.new) }
        ensures lone { Lone }
    {
        self.write(input);
        self.cells = advanced(self.rule, &self.cells);
    }

    fn save(&self, buffer: &mut [u32]) -> Result<(), Refusal> {
        if buffer.len() != Self::W {
            return Err(Refusal::WrongLength);
        }
        let words: [u32; 8] = from_fn(|k| packed_word(&self.cells, k));
        buffer.copy_from_slice(&words);
        Ok(())
    }

    fn load(&mut self, words: &[u32]) -> Result<(), Refusal> {
        if words.len() != Self::W {
            return Err(Refusal::WrongLength);
        }
        self.cells = from_fn(|c| unpacked_cell(words, c));
        Ok(())
    }

    ghost broad = { (omega arith, omega arith) };

    ghost present = { λ r. packed_lawful r.cells };

    ghost sized = { λ r x h. lawful_sized x h };

    ghost goes = { λ r x i h. next_lawful r.rule x i };

    ghost reads = { λ r x i. next_read r.rule x i };
}

#[cfg(test)]
mod tests {
    use super::*;
    use std::test::Fail;

    // Rule 90 on cell 0 alone gives cells 1 and 255.
    #[test]
    fn lone_cell(rt: HostRuntime) -> Result<(), Fail> {
        let mut row = Row::new(90)?;
        row.set_cell(0, 1)?;
        row.step(0);
        let mut words = [0; 8];
        row.save(&mut words)?;
        assert_eq!(rt; words, [2, 0, 0, 0, 0, 0, 0, 0x8000_0000]);
        Ok(())
    }
}
