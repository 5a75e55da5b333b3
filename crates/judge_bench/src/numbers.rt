//! Whole numbers of a text, one after another.
ghost use Rattle.std.specs.Prelude.{◌<◌, ◌≤◌, IfOk};

use crate::fault::Fault;
use std::alloc::Global;

/// The numbers of a text, taken one after another.
#[derive(Drop)]
pub struct Numbers {
    numbers: Vec<u64>,
    next: usize,
}

impl Numbers {
    /// The runs of digits of a text, whatever stands between them.
    pub fn read(alloc: Global, text: &[u8]) -> Result<Numbers, Fault> {
        let mut numbers = Vec::new(alloc);
        let mut number: u64 = 0;
        let mut inside = false;
        for byte in text {
            if byte.is_ascii_digit() {
                number = number
                    .saturating_mul(10)
                    .saturating_add((*byte & 15) as u64);
                inside = true;
            } else if inside {
                numbers.push(number)?;
                number = 0;
                inside = false;
            }
        }
        numbers.push(number)?;
        Ok(Numbers { numbers, next: 0 })
    }

    fn taken(&mut self) -> Option<u64> {
        let number = self.numbers.get(self.next).copied();
        self.next = self.next.saturating_add(1);
        number
    }

    /// The next number, if there is one and it is at most `most`.
    pub fn at_most(&mut self, most: u64) -> Result<u64, Fault>
        ensures { IfOk result (λ number. number ≤ most) }
    {
        let number = self.taken();
        match number {
            Some(number) if number <= most => Ok(number),
            _ => Err(Fault::Malformed),
        }
    }

    /// The next number, if there is one and it is below `bound`.
    pub fn below(&mut self, bound: u32) -> Result<u32, Fault>
        ensures { IfOk result (λ number. number < bound) }
    {
        let number = self.at_most(u32::MAX as u64)? as u32;
        if number < bound {
            Ok(number)
        } else {
            Err(Fault::Malformed)
        }
    }
}
