// What a cell says of a record.
ghost use Rattle.std.specs.Prelude.{◌≡◌};
ghost use Rattle.text.specs.Kinds.{kind_of};

use script::Kind;

// The kind of a record by its first cell. A script that was judged has no other number; one that was not is printed as if each were a clause's.
pub fn kind_of(n: u32) -> Kind
    ensures { result ≡ kind_of n }
{
    Kind::try_from(n).unwrap_or(Kind::Clause)
}
