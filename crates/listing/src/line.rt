// One line of the listing (document 02, W1): the address of a word and its fields.
ghost use Rattle.std.specs.Prelude.{ℕ, ◌+◌, ◌≤◌, ◌≡◌, ◌++◌, length, map};
ghost use Rattle.text.specs.Digits.{hex};
ghost use Rattle.instruction.specs.Fields.{fields_of};
ghost use Rattle.language.specs.Line.{operand, field, fields_by, spaced, line};

use instruction::{ClassTable, Fields};
use language::forms::{Form, form_of};
use language::names;
use text::Text;

// Fields, each after a blank.
#[tactic(auto, using(crate::proofs::Spacing::field_put, crate::proofs::Spacing::all_put))]
fn push_spaced(line: &mut Text<24>, fields: &[&[u8]])
    requires { length line.old + length (spaced (map (λ field. field.now) fields.now)) ≤ 24 }
    ensures { line.new ≡ line.old ++ spaced (map (λ field. field.now) fields.now) }
{
    for field in fields {
        line.push(b' ');
        line.push_text(field);
    }
}

// What stands before and after the digits of an operand: #00005, 00005, 00005+X or 00005+Y.
#[tactic(auto, unfolding(language::specs::Line::operand))]
fn signs(msf: u32) -> (&'static [u8], &'static [u8])
    ensures around { (addr : ℕ) → operand msf addr ≡ result.0.now ++ hex 5 addr ++ result.1.now }
    ensures within { length result.0.now + length result.1.now ≤ 2 }
{
    match msf {
        0 => (b"#", b""),
        1 => (b"", b""),
        2 => (b"", b"+X"),
        _ => (b"", b"+Y"),
    }
}

// An operand after a blank.
fn push_operand(line: &mut Text<24>, f: Fields)
    requires { length line.old + length (field (operand f.msf f.addr)) ≤ 24 }
    ensures { line.new ≡ line.old ++ field (operand f.msf f.addr) }
{
    let (before, after) = signs(f.msf);
    line.push(b' ');
    line.push_text(before);
    line.push_hex(5, f.addr as usize);
    line.push_text(after);
}

// All 32 bits of a word.
fn digits_of(w: u32) -> Text<8>
    ensures { result ≡ hex 8 w }
{
    let mut digits = Text::new();
    digits.push_hex(8, w as usize);
    digits
}

// The fields of a word of a form, each after a blank.
#[tactic(auto, using(instruction::proofs::FieldsOf::fields_are), unfolding(language::specs::Line::fields_by, language::specs::Line::spaced))]
fn push_fields(line: &mut Text<24>, form: Form, w: u32)
    requires { length line.old + length (spaced (fields_by form w (fields_of w))) ≤ 24 }
    ensures { line.new ≡ line.old ++ spaced (fields_by form w (fields_of w)) }
{
    let f = Fields::of_word(w);
    match form {
        Form::Word => push_spaced(line, &[b"WORD", digits_of(w).as_bytes()]),
        Form::Comparison => {
            let comparison = names::comparison(f.fsf);
            push_spaced(line, &[b"CMP", comparison, names::register(f.rsf)]);
            push_operand(line, f);
        }
        Form::Write => {
            push_spaced(line, &[names::destination(f.dsf), names::register(f.rsf)]);
            push_operand(line, f);
        }
        Form::Shift => {
            let destination = names::destination(f.dsf);
            let shift = names::shift(f.msf);
            push_spaced(line, &[destination, shift, names::register(f.rsf)]);
        }
        Form::Unary => {
            push_spaced(line, &[names::destination(f.dsf), names::function(f.fsf)]);
            push_operand(line, f);
        }
        Form::Binary => {
            let destination = names::destination(f.dsf);
            let function = names::function(f.fsf);
            push_spaced(line, &[destination, function, names::register(f.rsf)]);
            push_operand(line, f);
        }
    }
}

// The line of a word at an address, whose last five digits it tells.
#[tactic(auto, using(text::proofs::Digits::hex_length, crate::proofs::Lengths::line_within), unfolding(language::specs::Line::line))]
pub fn line_of(table: &ClassTable, address: usize, w: u32) -> Text<24>
    ensures { result ≡ line address w }
{
    let mut line = Text::new();
    line.push_hex(5, address);
    push_fields(&mut line, form_of(table, w), w);
    line.push(b'\n');
    line
}
