// A record of old values, made whole and then added to the trail (document 01, "The trail").
//
// The trail and the count of its bytes in use come apart, as C lends them. A struct of both was tried: it holds a `&mut`, so each contract has to say that
// it still holds the same reference, and of bytes and count apart what the pair says at once: three clauses more for the one fact that it spares.
ghost use Rattle.std.specs.Prelude.{◌≡◌, cond, ◌+◌, ◌*◌, ◌^◌, ◌<◌, ◌≤◌, ◌∷◌, ◌++◌, length, take, Some, None};
ghost use Rattle.report.specs.AnnexA.{BV};
ghost use Rattle.machine.specs.Held.{where_of};
ghost use Rattle.trail.specs.Numbers.{groups, Put};
ghost use Rattle.trail.specs.OneChange.{closed, nine, one_value, registers_kept, register_changed, Register};
ghost use Rattle.trail.specs.Records.{Addressed, Good, added, body, kind_number, old_values, record_bytes, word_place, word_value};

use crate::numbers::{group, put_if, put_number};
use crate::places::place_number;
use crate::{Kind, OldValues, OldWord, TrailFull};
use machine::{Machine, Place};

// A record, made whole before room is judged: the first `len` bytes of `bytes`. (Document 01 names the form: a struct with a 28-byte array and a length.)
#[derive(Drop)]
pub struct Record {
    pub bytes: [u8; 28],
    pub len: usize,
}

// The marks that tell the old flags.
fn flags(b: bool, stop: bool) -> u32
    ensures { (result ≡ 16 * BV b + 32 * BV stop) × (result ≤ 48) }
{
    16 * u32::from(b) + 32 * u32::from(stop)
}

// A value that is marked; 0 for one that is not. (This and the three small functions after it are the definitions' own words, each with its contract.)
fn value_if(marked: bool, v: u32) -> u32
    ensures { result ≡ cond marked v 0 }
{
    if marked { v } else { 0 }
}

// The number of the place of a word that changed, and its old value; 0 where none did.
fn word_place(word: Option<OldWord>) -> u32
    requires { Addressed word }
    ensures { result ≡ word_place word }
{
    word.map_or(0, |w| place_number(w.place))
}

fn word_value(word: Option<OldWord>) -> u32
    ensures { result ≡ word_value word }
{
    word.map_or(0, |w| w.value)
}

// The number of a kind.
fn kind_number(kind: Kind) -> u32
    ensures { result ≡ kind_number kind }
{
    kind as u32
}

// What an operation's record holds, by its kind, the machine before it, the machine after it and the word that it changed.
pub fn old_values(kind: Kind, old: Machine, new: Machine, word: Option<OldWord>) -> OldValues
    requires { Addressed word }
    ensures { result ≡ old_values kind old new word }
{
    OldValues {
        kind,
        marks: u32::from(old.a != new.a)
            + 2 * u32::from(old.x != new.x)
            + 4 * u32::from(old.y != new.y)
            + 8 * u32::from(word.is_some())
            + flags(old.b, old.stop),
        p: old.p,
        a: value_if(old.a != new.a, old.a),
        x: value_if(old.x != new.x, old.x),
        y: value_if(old.y != new.y, old.y),
        place: word_place(word),
        value: word_value(word),
    }
}

// Puts the bytes of a record, L last, and answers their count. (That the array has 28 bytes stands in each contract: the length of a lent array is not
// known otherwise.)
fn fill(bytes: &mut [u8; 28], o: OldValues) -> usize
    requires { (Good (2 ^ 21) o) × (length (body o) ≤ 27) × (length bytes.old ≡ 28) }
    ensures { Put 0 (record_bytes o) bytes.old bytes.new result }
{
    let m = o.marks;
    let at_marks = put_number(bytes, 0, kind_number(o.kind));
    let at_p = put_number(bytes, at_marks, m);
    let at_a = put_number(bytes, at_p, o.p);
    let at_x = put_if(m / 1 % 2 == 1, bytes, at_a, o.a);
    let at_y = put_if(m / 2 % 2 == 1, bytes, at_x, o.x);
    let at_place = put_if(m / 4 % 2 == 1, bytes, at_y, o.y);
    let at_value = put_if(m / 8 % 2 == 1, bytes, at_place, o.place);
    let n = put_if(m / 8 % 2 == 1, bytes, at_value, o.value);
    bytes[n] = n as u8;
    n + 1
}

// Copies a record right after the bytes in use. It is the only function that writes a byte of the trail.
#[tactic(auto, unfolding(crate::specs::Records::added))]
fn copy(trail: &mut [u8], used: usize, bytes: &[u8]) -> Result<usize, TrailFull>
    requires { used ≤ length trail.old }
    ensures { (result, trail.new) ≡ added trail.old used bytes.now }
{
    if trail.len() - used < bytes.len() {
        return Err(TrailFull);
    }
    let next = used + bytes.len();
    trail[used..next].copy_from_slice(bytes);
    Ok(next)
}

// Adds the record of old values whose bytes before L are at most 27: only a word beside all three registers, each with its longest number, has
// one more, and no operation changes those.
pub fn add(trail: &mut [u8], used: usize, o: OldValues) -> Result<usize, TrailFull>
    requires { (used ≤ length trail.old) × Good (2 ^ 21) o × (length (body o) ≤ 27) }
    ensures { (result, trail.new) ≡ added trail.old used (record_bytes o) }
{
    let mut r = Record {
        bytes: [0; 28],
        len: 0,
    };
    r.len = fill(&mut r.bytes, o);
    copy(trail, used, &r.bytes[..r.len])
}

// The records of steps, which change at most one register or one word. What they add is what `add` would; most are short, and those are made
// without a loop, each length written out, once for a P of one byte and once for a P of two, in nine bytes that are told one by one. The plainer forms
// made every step longer, of 77 instructions: a record that counts its own bytes 91, one function for either P over two parts of a record 95, and the
// same without the record's array 84.

// Adds a step's record of at most ten bytes: the first `len` of the kind 1 and these nine, L last.
fn add_short(
    trail: &mut [u8],
    used: usize,
    len: usize,
    b0: u8,
    b1: u8,
    b2: u8,
    b3: u8,
    b4: u8,
    b5: u8,
    b6: u8,
    b7: u8,
    b8: u8,
) -> Result<usize, TrailFull>
    requires { (used ≤ length trail.old) × (len ≤ 10) }
    ensures { (result, trail.new) ≡ added trail.old used (take len (nine b0 b1 b2 b3 b4 b5 b6 b7 b8)) }
{
    let mut bytes = [0u8; 28];
    bytes[0] = 1;
    bytes[1] = b0;
    bytes[2] = b1;
    bytes[3] = b2;
    bytes[4] = b3;
    bytes[5] = b4;
    bytes[6] = b5;
    bytes[7] = b6;
    bytes[8] = b7;
    bytes[9] = b8;
    let r = Record { bytes, len };
    copy(trail, used, &r.bytes[..r.len])
}

// Puts the bytes of a record with no value, L last, and answers their count.
fn fill_marks_and_p(bytes: &mut [u8; 28], marks: u32, p: u32) -> usize
    requires { (marks < 64) × (p < 2 ^ 20) × (length bytes.old ≡ 28) }
    ensures { Put 0 (closed (1 ∷ (marks ∷ groups p))) bytes.old bytes.new result }
{
    bytes[0] = 1;
    bytes[1] = marks as u8;
    let n = put_number(bytes, 2, p);
    bytes[n] = n as u8;
    n + 1
}

// Adds a record with no value: the marks and P. A call of `add` in its place made every step five instructions longer.
fn add_marks_and_p(trail: &mut [u8], used: usize, marks: u32, p: u32) -> Result<usize, TrailFull>
    requires { (used ≤ length trail.old) × (marks < 64) × (p < 2 ^ 20) }
    ensures { (result, trail.new) ≡ added trail.old used (closed (1 ∷ (marks ∷ groups p))) }
{
    let mut r = Record {
        bytes: [0; 28],
        len: 0,
    };
    r.len = fill_marks_and_p(&mut r.bytes, marks, p);
    copy(trail, used, &r.bytes[..r.len])
}

// Adds the record of an operation that changed no register and no word.
pub fn add_flags(
    trail: &mut [u8],
    used: usize,
    p: u32,
    b: bool,
    stop: bool,
) -> Result<usize, TrailFull>
    requires { (used ≤ length trail.old) × (p < 2 ^ 20) }
    ensures { (result, trail.new) ≡ added trail.old used (record_bytes (registers_kept p b stop None)) }
{
    let marks = flags(b, stop);
    if p < 128 {
        return add_short(trail, used, 4, marks as u8, p as u8, 3, 0, 0, 0, 0, 0, 0);
    }
    if p < 16384 {
        return add_short(
            trail,
            used,
            5,
            marks as u8,
            group(p),
            (p / 128) as u8,
            4,
            0,
            0,
            0,
            0,
            0,
        );
    }
    add_marks_and_p(trail, used, marks, p)
}

// Puts the bytes of a record with one value, L last, and answers their count.
fn fill_value(bytes: &mut [u8; 28], marks: u32, p: u32, place: u32, v: u32) -> usize
    requires { (marks < 64) × (p < 2 ^ 20) × (place < 2 ^ 21) × (length bytes.old ≡ 28) }
    ensures { Put 0 (one_value marks p place v) bytes.old bytes.new result }
{
    bytes[0] = 1;
    bytes[1] = marks as u8;
    let at_place = put_number(bytes, 2, p);
    let at_value = put_if(marks / 8 % 2 == 1, bytes, at_place, place);
    let n = put_number(bytes, at_value, v);
    bytes[n] = n as u8;
    n + 1
}

// Adds a record with one value: the marks, P, the word's place if one is marked, and the value.
fn add_value(
    trail: &mut [u8],
    used: usize,
    marks: u32,
    p: u32,
    place: u32,
    v: u32,
) -> Result<usize, TrailFull>
    requires { (used ≤ length trail.old) × (marks < 64) × (p < 2 ^ 20) × (place < 2 ^ 21) }
    ensures { (result, trail.new) ≡ added trail.old used (one_value marks p place v) }
{
    let mut r = Record {
        bytes: [0; 28],
        len: 0,
    };
    r.len = fill_value(&mut r.bytes, marks, p, place, v);
    copy(trail, used, &r.bytes[..r.len])
}

// Adds a record of the marks, a P of one byte and a value: n bytes hold what is below the n-th power of 128. The low groups are written out for
// each length: held in a local, they made a step up to three instructions longer.
fn add_with_p_of_one_byte(
    trail: &mut [u8],
    used: usize,
    marks: u8,
    p: u8,
    v: u32,
) -> Result<usize, TrailFull>
    requires { (used ≤ length trail.old) × (p < 128) }
    ensures { (result, trail.new) ≡ added trail.old used (closed (1 ∷ (marks ∷ (groups p ++ groups v)))) }
{
    if v < 128 {
        return add_short(trail, used, 5, marks, p, v as u8, 4, 0, 0, 0, 0, 0);
    }
    if v < 16384 {
        return add_short(
            trail,
            used,
            6,
            marks,
            p,
            group(v),
            (v / 128) as u8,
            5,
            0,
            0,
            0,
            0,
        );
    }
    let second = group(v / 128);
    if v < 2097152 {
        return add_short(
            trail,
            used,
            7,
            marks,
            p,
            group(v),
            second,
            (v / 128 / 128) as u8,
            6,
            0,
            0,
            0,
        );
    }
    let third = group(v / 128 / 128);
    if v < 268435456 {
        return add_short(
            trail,
            used,
            8,
            marks,
            p,
            group(v),
            second,
            third,
            (v / 128 / 128 / 128) as u8,
            7,
            0,
            0,
        );
    }
    let fourth = group(v / 128 / 128 / 128);
    add_short(
        trail,
        used,
        9,
        marks,
        p,
        group(v),
        second,
        third,
        fourth,
        (v / 128 / 128 / 128 / 128) as u8,
        8,
        0,
    )
}

// The same with a P of two bytes.
fn add_with_p_of_two_bytes(
    trail: &mut [u8],
    used: usize,
    marks: u8,
    p: u32,
    v: u32,
) -> Result<usize, TrailFull>
    requires { (used ≤ length trail.old) × (128 ≤ p) × (p < 16384) }
    ensures { (result, trail.new) ≡ added trail.old used (closed (1 ∷ (marks ∷ (groups p ++ groups v)))) }
{
    if v < 128 {
        return add_short(
            trail,
            used,
            6,
            marks,
            group(p),
            (p / 128) as u8,
            v as u8,
            5,
            0,
            0,
            0,
            0,
        );
    }
    if v < 16384 {
        return add_short(
            trail,
            used,
            7,
            marks,
            group(p),
            (p / 128) as u8,
            group(v),
            (v / 128) as u8,
            6,
            0,
            0,
            0,
        );
    }
    let second = group(v / 128);
    if v < 2097152 {
        return add_short(
            trail,
            used,
            8,
            marks,
            group(p),
            (p / 128) as u8,
            group(v),
            second,
            (v / 128 / 128) as u8,
            7,
            0,
            0,
        );
    }
    let third = group(v / 128 / 128);
    if v < 268435456 {
        return add_short(
            trail,
            used,
            9,
            marks,
            group(p),
            (p / 128) as u8,
            group(v),
            second,
            third,
            (v / 128 / 128 / 128) as u8,
            8,
            0,
        );
    }
    let fourth = group(v / 128 / 128 / 128);
    add_short(
        trail,
        used,
        10,
        marks,
        group(p),
        (p / 128) as u8,
        group(v),
        second,
        third,
        fourth,
        (v / 128 / 128 / 128 / 128) as u8,
        9,
    )
}

// Adds the record of an operation that changed one register, whose mark weighs w, and no word.
pub fn add_register(
    trail: &mut [u8],
    used: usize,
    w: u32,
    p: u32,
    b: bool,
    stop: bool,
    old: u32,
) -> Result<usize, TrailFull>
    requires { (used ≤ length trail.old) × (p < 2 ^ 20) × Register w }
    ensures { (result, trail.new) ≡ added trail.old used (record_bytes (register_changed w p b stop old)) }
{
    let marks = w + flags(b, stop);
    if p < 128 {
        return add_with_p_of_one_byte(trail, used, marks as u8, p as u8, old);
    }
    if p < 16384 {
        return add_with_p_of_two_bytes(trail, used, marks as u8, p, old);
    }
    add_value(trail, used, marks, p, 0, old)
}

// Adds the record of an operation that changed one word and no register.
pub fn add_word(
    trail: &mut [u8],
    used: usize,
    p: u32,
    b: bool,
    stop: bool,
    place: Place,
    old: u32,
) -> Result<usize, TrailFull>
    requires { (used ≤ length trail.old) × (p < 2 ^ 20) × ((where_of place).1 < 2 ^ 20) }
    ensures { (result, trail.new) ≡ added trail.old used (record_bytes (registers_kept p b stop (Some (record { place = place; value = old })))) }
{
    add_value(trail, used, 8 + flags(b, stop), p, place_number(place), old)
}
