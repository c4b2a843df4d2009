// Whole trails moved from the old form of records to the new one, where each begins with its kind, and back (document 02, W12).
#![tactic(auto)]

mod judging;
mod writing;

ghost use Rattle.std.specs.Prelude.{◌≡◌, true, false};
ghost use Rattle.moving.specs.Moving.{move as move_of};

use crate::judging::{count_records, judge_room};
use crate::writing::write;
use trail::Broken;

// Why a move was refused: a record is broken, or the output is too short. Nothing is written then.
#[derive(Clone, Copy, Debug, PartialEq, Eq)]
pub enum MoveRefusal {
    Broken = 8,
    Short = 9,
}

impl From<Broken> for MoveRefusal {
    ghost use Rattle.moving.specs.declared.MoveRefusal.TheVariants as refusal;
    ghost use Rattle.std.specs.Prelude.{◌≡◌};

    ghost from_gives = { λ _ e. e ≡ refusal.Broken };

    fn from(_e: Broken) -> MoveRefusal {
        MoveRefusal::Broken
    }
}

// The whole input is judged before a byte of the output is written. A form is told by whether its records begin with a kind, as in the definitions. The answer is the count of bytes written, which is the moved trail's count in use.
#[tactic(auto, using(crate::proofs::Exits::broken, crate::proofs::Exits::few, crate::proofs::Exits::short, crate::proofs::Exits::moves))]
fn move_all(new: bool, s: &[u8], out: &mut [u8]) -> Result<usize, MoveRefusal>
    ensures { (result, out.new) ≡ move_of new s.now out.old }
{
    let n = count_records(!new, s)?;
    let total = judge_room(new, s.len(), n, out.len())?;
    write(new, s, out, total);
    Ok(total)
}

// From the old form to the new one: each record gets the kind 0.
pub fn to_new(old: &[u8], out: &mut [u8]) -> Result<usize, MoveRefusal>
    ensures { (result, out.new) ≡ move_of true old.now out.old }
{
    move_all(true, old, out)
}

// From the new form to the old one: the kinds are dropped.
pub fn to_old(new: &[u8], out: &mut [u8]) -> Result<usize, MoveRefusal>
    ensures { (result, out.new) ≡ move_of false new.now out.old }
{
    move_all(false, new, out)
}
