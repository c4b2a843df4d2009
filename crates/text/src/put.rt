// Texts put at a place of a buffer that a caller lends.
ghost use Rattle.std.specs.Prelude.{◌+◌, ◌≤◌, length};
ghost use Rattle.text.specs.Placed.{Placed};

// Answers the place after the text.
pub fn put_text(out: &mut [u8], at: usize, text: &[u8]) -> usize
    requires { at + length text.now ≤ length out.old }
    ensures { Placed at text.now out.old result out.new }
{
    let next = at + text.len();
    out[at..next].copy_from_slice(text);
    next
}
