//! A strip over lists, for windows by themselves, and the numbers of borders.
ghost use Rattle.std.specs.Prelude.{◌≡◌, length};
ghost use Rattle.lte_bits.specs.Softs.{IsWithin};

use lte_bits::{NoMemory, Soft};
use rsc_trellis::State;
use std::alloc::Global;
use std::process::Abort;
use window_decode::{Border, Ext, Strip};

/// A strip over lists.
#[derive(Drop)]
pub struct Values {
    pub sys: Vec<Soft>,
    pub par: Vec<Soft>,
    pub cells: Vec<Ext>,
    ghost sys_long: { length sys.items ≡ length cells.items },
    ghost par_long: { length par.items ≡ length cells.items },
}

impl Strip for Values {
    type Rest = ();

    ghost systematic = { λ v. v.sys.items };

    ghost parity = { λ v. v.par.items };

    ghost cells = { λ v. v.cells.items };

    ghost rest = { λ _. tt };

    fn width(&self) -> usize {
        self.cells.len()
    }

    fn sys(&self, j: usize) -> i16 {
        i16::from(self.sys[j].value())
    }

    fn par(&self, j: usize) -> i16 {
        i16::from(self.par[j].value())
    }

    fn cell(&self, j: usize) -> Ext {
        self.cells[j]
    }

    fn set_cell(&mut self, j: usize, v: Ext) {
        self.cells[j] = v;
    }
}

/// Returns the strip with these values, of one length.
pub fn strip(rt: &impl Abort, sys: Vec<Soft>, par: Vec<Soft>, cells: Vec<Ext>) -> Values {
    assert!(rt; sys.len() == cells.len() && par.len() == cells.len());
    Values { sys, par, cells }
}

pub fn softs(alloc: Global, numbers: &[i8]) -> Result<Vec<Soft>, NoMemory> {
    let mut values = Vec::new(alloc);
    for number in numbers {
        values.push(Soft::from_i8(*number))?;
    }
    Ok(values)
}

pub fn ext(value: i16, one: bool) -> Ext
    requires { IsWithin 511 value }
{
    Ext { value, one }
}

pub fn exts(alloc: Global, numbers: &[i16]) -> Result<Vec<Ext>, NoMemory> {
    let mut cells = Vec::new(alloc);
    for number in numbers {
        cells.push(ext((*number).clamp(-511, 511), false))?;
    }
    Ok(cells)
}

/// Returns whether a border has these numbers, in order of the states' numbers.
pub fn has_numbers(border: Border, want: [i16; 8]) -> bool {
    for (n, number) in (0..8).zip(want) {
        match State::new(n) {
            Some(state) if border.value(state) == number => {}
            _ => return false,
        }
    }
    true
}
