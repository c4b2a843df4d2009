// What an answer writes to regs and to the count in use (include/viper.h).
ghost use Rattle.viper_c.specs.Handed.{Handed};

use crate::registers::write_back;
use viper::{After, Refusal};

// An accepted call writes regs and the count in use, and answers 0; a refused one writes nothing and answers the refusal's number.
pub(crate) fn hand_back(
    answer: Result<After, Refusal>,
    regs: &mut [u32; 6],
    used: &mut usize,
) -> u32
    ensures { Handed answer regs.old used.old result regs.new used.new }
{
    match answer {
        Ok(after) => {
            write_back(after.machine, after.used, regs, used);
            0
        }
        Err(refusal) => refusal as u32,
    }
}
