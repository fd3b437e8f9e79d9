// Every small rule book: writes what crate `smallbooks` prints.
#![tactic(auto)]

ghost use Rattle.std.specs.Prelude.{◌≤◌, length, OnOk};
ghost use Rattle.std.specs.Io.KnownBytes.{Appends};
ghost use Rattle.smallbooks.specs.Books.{output};
ghost use Rattle.smallbooks.specs.Whole.{max_text};

use std::io;
use std::io::Write;
use text::{complain, filled};

// All of the text; there is room for it in the slice.
fn put<W: Write>(to: &mut W, text: &mut [u8]) -> io::Result<()>
    requires { max_text ≤ length text.old }
    ensures { OnOk result (Appends (W.contents to.old) (W.contents to.new) output) }
{
    let m = smallbooks::print(text);
    to.write_all(&text[..m])
}

fn serve<W: Write>(rt: &impl Eprint, to: &mut W, text: &mut [u8])
    requires { max_text ≤ length text.old }
{
    if put(to, text).is_err() {
        complain(rt, "small: the text could not be written to its end\n");
    }
}

// To standard output.
fn main(rt: HostRuntime) {
    let mut text = filled::<u8, 131072>(0);
    serve(&rt, &mut rt.stdout(), &mut text);
}
