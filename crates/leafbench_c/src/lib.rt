// The measured loops for C and Rust: what bench/leaf/leaf.rs declares. Each function is leafbench's of the same name, and says what that one says.
// A crate is a library or a static library, so what C calls stands in a crate of its own.
#![tactic(auto)]

ghost use Rattle.std.specs.Prelude.{◌≡◌, length};
ghost use Rattle.leafbench.specs.Results.{leaf_trail, leaf_watch, leaf_work};

// n levels, each filled with the literals of `order` and taken back: how many literals were put on the trail. With 64 variables. The slice is left zero.
#[unsafe(no_mangle)]
pub extern "C" fn leaf_trail(work: &mut [u32], order: &[u32], n: u32) -> u64
    ensures value { result ≡ leaf_trail (length work.old) order.now n }
    ensures work_after { work.new ≡ leaf_work work.old (length order.now) }
{
    leafbench::leaf_trail(work, order, n)
}

// n walks of a list of 32 nodes, where the literals of `order` are true: how many true blockers were met. The slice is left zero.
#[unsafe(no_mangle)]
pub extern "C" fn leaf_watch(work: &mut [u32], order: &[u32], n: u32) -> u64
    ensures value { result ≡ leaf_watch (length work.old) order.now n }
    ensures work_after { work.new ≡ leaf_work work.old (length order.now) }
{
    leafbench::leaf_watch(work, order, n)
}
