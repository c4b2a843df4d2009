// The names of the listing (document 02, W1) as fixed byte strings. A number that has no name gets the empty one.
ghost use Rattle.std.specs.Prelude.{◌≡◌, [], map, slice_index_or};
ghost use Rattle.language.specs.Names.{destination_name, function_name, shift_name, comparison_name, register_name};

// By dsf.
const DESTINATIONS: [&[u8]; 8] = [b"A", b"X", b"Y", b"P", b"PB", b"PN", b"IO", b"MEM"];

// By fsf.
const FUNCTIONS: [&[u8]; 12] = [
    b"NEG", b"CALL", b"IN", b"LD", b"ADD", b"ADDS", b"SUB", b"SUBS", b"XOR", b"AND", b"NOR",
    b"ANDN",
];

// By msf, which is a shift's function.
const SHIFTS: [&[u8]; 4] = [b"ASR", b"ROR", b"SHLS", b"ROL"];

// By fsf: the comparisons 0 to 7, and the same with B added, ORed.
const COMPARISONS: [&[u8]; 16] = [
    b"LT", b"GE", b"EQ", b"NE", b"LE", b"GT", b"BL", b"BH", // 0 to 7
    b"LTB", b"GEB", b"EQB", b"NEB", b"LEB", b"GTB", b"BLB", b"BHB", // 8 to 15
];

// By rsf. 3 is N, which is P + 1.
const REGISTERS: [&[u8]; 4] = [b"A", b"X", b"Y", b"N"];

// The name that a number has in a table.
fn named(names: &[&'static [u8]], number: u32) -> &'static [u8]
    ensures { result.now ≡ slice_index_or (map (λ name. name.now) names.now) number [] }
{
    names.get(number as usize).copied().unwrap_or(b"")
}

#[tactic(auto, unfolding(crate::specs::Names::split, crate::specs::Names::destination_name))]
pub fn destination(dsf: u32) -> &'static [u8]
    ensures { result.now ≡ destination_name dsf }
{
    named(&DESTINATIONS, dsf)
}

#[tactic(auto, unfolding(crate::specs::Names::split, crate::specs::Names::function_name))]
pub fn function(fsf: u32) -> &'static [u8]
    ensures { result.now ≡ function_name fsf }
{
    named(&FUNCTIONS, fsf)
}

#[tactic(auto, unfolding(crate::specs::Names::split, crate::specs::Names::shift_name))]
pub fn shift(msf: u32) -> &'static [u8]
    ensures { result.now ≡ shift_name msf }
{
    named(&SHIFTS, msf)
}

pub fn comparison(fsf: u32) -> &'static [u8]
    ensures { result.now ≡ comparison_name fsf }
{
    named(&COMPARISONS, fsf)
}

#[tactic(auto, unfolding(crate::specs::Names::split, crate::specs::Names::register_name))]
pub fn register(rsf: u32) -> &'static [u8]
    ensures { result.now ≡ register_name rsf }
{
    named(&REGISTERS, rsf)
}
