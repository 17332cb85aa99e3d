// Texts for C.
ghost use Rattle.std.specs.Prelude.{◌≡◌, []};
ghost use Rattle.c_rows.specs.Called.{called};
ghost use Rattle.c_text.specs.Calls.{text_of};

// Tells the place of the first sequence that is not well formed, and of the first character that is not shown as text.
#[unsafe(no_mangle)]
pub extern "C" fn pito_text(text: &[u8], answer: &mut [u64]) -> u64
    ensures { called result [] [] answer.new ≡ text_of text.now answer.old }
{
    c_text::calls::pito_text(text, answer)
}
