// Arithmetic on words of 32 bits: sums, comparisons, shifts and the ALU, each the report's own function (pages 10 to 16, tables 5 and 6). A function is
// chosen by the number that the tables give it, an arm a row, to be read beside them.
#![tactic(auto)]

ghost use Rattle.std.specs.Prelude.{◌≡◌, ℕ, ◌<◌, true, false};
ghost use Rattle.report.specs.Section3.{ADD32, SUB32, COMPARE, RIGHT, LEFT, RIGHTARITH, INVALID, ALU};
ghost use Rattle.report.specs.Parts.{signed as signed_of, less as less_than, shifted, jumping, to_p, overflows};
ghost use Rattle.word.specs.Triples.{sum_triple, result_triple};
ghost use Rattle.std.specs.Int.{w32};
ghost use Rattle.std.proofs.Common.{of_z};

// What an addition or a subtraction delivers: the word, carry or borrow, and signed overflow.
#[derive(Clone, Copy, Debug, PartialEq, Eq)]
pub struct Sum {
    pub value: u32,
    pub carry: bool,
    pub overflow: bool,
}

// What the ALU delivers: the word, the new B, and whether it stops the machine. (The report has triples for both; their flags mean other things.)
#[derive(Clone, Copy, Debug, PartialEq, Eq)]
pub struct AluResult {
    pub value: u32,
    pub b: bool,
    pub stop: bool,
}

impl AluResult {
    // A row of tables 6A and 6B: the word, the new B, and whether it stops the machine.
    fn new(value: u32, b: bool, stop: bool) -> AluResult
        ensures { result_triple result ≡ (value, b, stop) }
    {
        AluResult { value, b, stop }
    }
}

// The signed number of a word, wide enough that a sum or a difference of two is exact.
pub fn signed(r: u32) -> i64
    ensures { result ≡ signed_of r }
{
    i64::from(signed_word(r))
}

// The signed number of a word, at the width of a word.
pub fn signed_word(r: u32) -> i32
    ensures { result ≡ signed_of r }
{
    r.cast_signed()
}

// The word that stands for a signed number.
pub fn word_of(s: i32) -> u32
    ensures { result ≡ of_z w32 s }
{
    s.cast_unsigned()
}

// Signed less-than.
#[tactic(auto, using(crate::proofs::Casts::back32))]
pub fn less(r: u32, m: u32) -> bool
    ensures { result ≡ less_than r m }
{
    signed_word(r) < signed_word(m)
}

// A sum or a difference is none of a word's signed numbers.
fn overflows(exact: i64) -> bool
    ensures { result ≡ overflows exact }
{
    i32::try_from(exact).is_err()
}

// R + M. Nobody above this crate knows how overflow is worked out. (Sum and difference stay two functions, as ADD32 and SUB32 are in the report.)
pub fn add(r: u32, m: u32) -> Sum
    ensures { sum_triple result ≡ ADD32 (r, m) }
{
    let (value, carry) = r.overflowing_add(m);
    Sum {
        value,
        carry,
        overflow: overflows(signed(r) + signed(m)),
    }
}

// R - M.
pub fn subtract(r: u32, m: u32) -> Sum
    ensures { sum_triple result ≡ SUB32 (r, m) }
{
    let (value, carry) = r.overflowing_sub(m);
    Sum {
        value,
        carry,
        overflow: overflows(signed(r) - signed(m)),
    }
}

// Table 5.
#[tactic(auto, using(report::proofs::Readings::compare_is), unfolding(report::specs::Parts::compared))]
pub fn compare(fsf: u32, r: u32, m: u32, b: bool) -> bool
    ensures { result ≡ COMPARE (fsf, r, m, b) }
{
    let l = less(r, m);
    match fsf {
        0 => l,
        1 => !l,
        2 => r == m,
        3 => r != m,
        4 => l | (r == m),
        5 => !(l | (r == m)),
        6 => r < m,
        7 => !(r < m),
        8 => l | b,
        9 => !l | b,
        10 => (r == m) | b,
        11 => (r != m) | b,
        12 => (l | (r == m)) | b,
        13 => !(l | (r == m)) | b,
        14 => (r < m) | b,
        _ => !(r < m) | b,
    }
}

// One place right, with the sign copied.
pub fn right_arith(r: u32) -> u32
    ensures { result ≡ RIGHTARITH r }
{
    word_of(signed_word(r) >> 1)
}

// One place right, with b as the new top bit.
#[tactic(auto, using(report::proofs::Words::right_is))]
pub fn right(b: bool, r: u32) -> u32
    ensures { result ≡ RIGHT (b, r) }
{
    if b { 0x8000_0000 + r / 2 } else { r / 2 }
}

// One place left, with b as the new low bit.
#[tactic(auto, using(report::proofs::Words::left_is))]
pub fn left(r: u32, b: bool) -> u32
    ensures { result ≡ LEFT (r, b) }
{
    let twice = r % 0x8000_0000;
    if b { twice + twice + 1 } else { twice + twice }
}

// Any of the top twelve bits is set, so the word is no address and no P.
pub fn invalid(v: u32) -> bool
    ensures { result ≡ INVALID v }
{
    v >= 0x0010_0000
}

// Table 6B: the four shifts, by msf, for a destination other than P.
#[tactic(auto, using(report::proofs::Words::rightarith_is, report::proofs::Words::right_is, report::proofs::Words::left_is, report::proofs::AnnexB::add_is), unfolding(report::specs::Parts::shifted))]
fn shift(msf: u32, r: u32, b: bool) -> AluResult
    ensures { result_triple result ≡ shifted msf false r b }
{
    match msf {
        0 => AluResult::new(right_arith(r), b, false),
        1 => AluResult::new(right(b, r), r % 2 == 1, false),
        2 => {
            let double = add(r, r);
            AluResult::new(double.value, b, double.overflow)
        }
        _ => AluResult::new(left(r, b), r / 0x8000_0000 % 2 == 1, false),
    }
}

// Tables 6A and 6B where the result goes to A, X or Y.
#[tactic(auto, using(crate::proofs::Results::register_is), unfolding(report::specs::Parts::computed))]
pub fn alu_register(fsf: u32, msf: u32, r: u32, m: u32, b: bool) -> AluResult
    ensures { (dsf : ℕ) → dsf < 3 → result_triple result ≡ ALU (fsf, msf, dsf, r, m, b) }
{
    match fsf {
        0 => AluResult::new(!m, b, false),
        1 => AluResult::new(m, b, true),
        2 => AluResult::new(m, b, false),
        3 => AluResult::new(m, b, false),
        4 => {
            let sum = add(r, m);
            AluResult::new(sum.value, sum.carry, false)
        }
        5 => {
            let sum = add(r, m);
            AluResult::new(sum.value, b, sum.overflow)
        }
        6 => {
            let dif = subtract(r, m);
            AluResult::new(dif.value, dif.carry, false)
        }
        7 => {
            let dif = subtract(r, m);
            AluResult::new(dif.value, b, dif.overflow)
        }
        8 => AluResult::new(r ^ m, b, false),
        9 => AluResult::new(r & m, b, false),
        10 => AluResult::new(!(r | m), b, false),
        11 => AluResult::new(r & !m, b, false),
        12 => shift(msf, r, b),
        _ => AluResult::new(r, b, true),
    }
}

// Table 6A where the result goes to P, which takes the functions 1, 3, 5 and 7 alone.
#[tactic(auto, using(crate::proofs::Results::jump_to_m), unfolding(report::specs::Section3::ALU))]
pub fn alu_jump(fsf: u32, r: u32, m: u32, b: bool) -> AluResult
    requires { jumping fsf ≡ true }
    ensures { (msf dsf : ℕ) → to_p dsf ≡ true → result_triple result ≡ ALU (fsf, msf, dsf, r, m, b) }
{
    match fsf {
        5 => {
            let sum = add(r, m);
            AluResult::new(sum.value, b, sum.overflow | invalid(sum.value))
        }
        7 => {
            let dif = subtract(r, m);
            AluResult::new(dif.value, b, dif.overflow | invalid(dif.value))
        }
        _ => AluResult::new(m, b, invalid(m)),
    }
}
