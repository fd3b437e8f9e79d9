// A slice of bytes that is written from its start on.
ghost use Rattle.std.specs.Prelude.{◌≤◌, length};

// The bytes that are printed stand before `at`: lent, since there is no heap for a String. What no longer fits is left out.
#[derive(Drop)]
pub struct Printer<'a> {
    pub text: &'a mut [u8],
    pub at: usize,
    ghost within: { at ≤ length text.now },
}
