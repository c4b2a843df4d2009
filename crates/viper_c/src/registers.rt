// The machine in C's hands (include/viper.h): regs holds A, X, Y, P, B and STOP, one word each. Functions and no From: the machine is a type of
// another crate, and the array one of std.
ghost use Rattle.std.specs.Prelude.{◌≡◌};
ghost use Rattle.viper_c.specs.Surface.{machine_of_regs, regs_of_machine};

use machine::Machine;

// The machine that regs gives. B and STOP count as set if they are not 0.
pub(crate) fn machine_of(regs: &[u32; 6]) -> Machine
    ensures { result ≡ machine_of_regs regs.now }
{
    Machine {
        a: regs[0],
        x: regs[1],
        y: regs[2],
        p: regs[3],
        b: regs[4] != 0,
        stop: regs[5] != 0,
    }
}

// Writes all six words, B and STOP as 0 or 1, and the count in use.
pub(crate) fn write_back(m: Machine, count: usize, regs: &mut [u32; 6], used: &mut usize)
    ensures { (regs.new ≡ regs_of_machine m) × (used.new ≡ count) }
{
    *regs = [m.a, m.x, m.y, m.p, u32::from(m.b), u32::from(m.stop)];
    *used = count;
}
