// The old values of a record put back in regs: P, B and STOP, and of A, X and Y only what is marked.
ghost use Rattle.std.specs.Prelude.{◌≡◌, ◌<◌, length};
ghost use Rattle.viper.specs.Finding.{Marks};
ghost use Rattle.viper_c.specs.Restoring.{put_if as put_if_of, flags_put, all_put};

use reading::Marked;
use trail::OldValues;

// Puts back P, B and STOP. A, X and Y are written as they are, so that all six words are known; the compiler leaves that out.
fn put_flags(o: OldValues, regs: &mut [u32; 6])
    ensures { regs.new ≡ flags_put o regs.old }
{
    let b = u32::from(o.marks / 16 % 2 == 1);
    let stop = u32::from(o.marks / 32 % 2 == 1);
    *regs = [regs[0], regs[1], regs[2], o.p, b, stop];
}

// Puts back a register that is marked.
fn put_if(marked: bool, regs: &mut [u32; 6], i: usize, v: u32)
    requires { (i < 6) × (length regs.old ≡ 6) }
    ensures { regs.new ≡ put_if_of marked i v regs.old }
{
    if marked {
        regs[i] = v;
    }
}

// Puts all old values of the registers back. Where one alone is marked, the others are not asked for.
pub(crate) fn put_back(marked: Marked, o: OldValues, regs: &mut [u32; 6])
    requires { Marks marked o.marks }
    ensures { regs.new ≡ all_put o regs.old }
{
    put_flags(o, regs);
    match marked {
        Marked::Nothing => {}
        Marked::A => {
            regs[0] = o.a;
        }
        Marked::X => {
            regs[1] = o.x;
        }
        Marked::Y => {
            regs[2] = o.y;
        }
        Marked::Any => {
            put_if(o.marks / 1 % 2 == 1, regs, 0, o.a);
            put_if(o.marks / 2 % 2 == 1, regs, 1, o.x);
            put_if(o.marks / 4 % 2 == 1, regs, 2, o.y);
        }
    }
}
