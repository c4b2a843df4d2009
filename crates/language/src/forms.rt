// Which fields the line of a word has (document 02, W1).
ghost use Rattle.std.specs.Prelude.{◌≡◌};
ghost use Rattle.language.specs.Line.{ignoring, function_form, form};

use instruction::{ClassTable, Fields};

// Which fields a word has. A unary function is one of M alone, a binary one of R and M.
#[derive(Clone, Copy, Debug, PartialEq, Eq)]
pub enum Form {
    Word,
    Comparison,
    Write,
    Shift,
    Unary,
    Binary,
}

// A form in which some bits are ignored is only for words where these are zero.
fn ignoring(bits: u32, form: Form) -> Form
    ensures { result ≡ ignoring bits form }
{
    if bits == 0 { form } else { Form::Word }
}

// The form of a word of classes 4 to 9, which have a result for a register or P.
#[tactic(auto, unfolding(crate::specs::Line::function_form))]
fn function_form(f: Fields) -> Form
    ensures { result ≡ function_form f }
{
    match f.fsf {
        12 => ignoring(f.addr, Form::Shift),
        0..=3 => ignoring(f.rsf, Form::Unary),
        _ => Form::Binary,
    }
}

#[tactic(auto, using(crate::proofs::ByClass::comparison_form, crate::proofs::ByClass::word_form, crate::proofs::ByClass::write_form, crate::proofs::ByClass::taken_form))]
pub fn form_of(table: &ClassTable, w: u32) -> Form
    ensures { result ≡ form w }
{
    let f = Fields::of_word(w);
    match table.class_of(w) {
        0 => ignoring(f.dsf, Form::Comparison),
        1 => Form::Word,
        2 | 3 => ignoring(f.fsf, Form::Write),
        _ => function_form(f),
    }
}
