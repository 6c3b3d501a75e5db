//! Keys: the labels of a path's nodes.

ghost use Rattle.std.specs.Prelude.{◌≡◌, ◌<◌, [], drop, length};
ghost use Rattle.std.specs.Str.{bytes_eq};
ghost use Rattle.comb_run.specs.Entries.{path_of};

use arrayvec::ArrayVec;
use tree_shapes::{KEY_LIMIT, STRAND_LIMIT};

/// The labels of a tree's strands.
pub(crate) type Strands = ArrayVec<u8, STRAND_LIMIT>;

/// The labels of a path's nodes, x_2 .. x_n: one for each strand after the first.
pub(crate) type Key = ArrayVec<u8, KEY_LIMIT>;

/// The most labels of a path.
pub(crate) const PATH_LIMIT: usize = STRAND_LIMIT + 1;

/// The labels of a comb path: x_0, the unit, and one after each strand.
pub(crate) type Path = ArrayVec<u8, PATH_LIMIT>;

/// Whether a path begins as those over these strands do: with the unit and the first strand.
pub(crate) fn is_over(strands: &[u8], path: &[u8]) -> bool
    requires { 0 < length strands.now }
    ensures { result ≡ bytes_eq (path_of strands.now (drop 2 path.now)) path.now }
{
    match path {
        [x, y, ..] => *x == 0 && *y == strands[0],
        _ => false,
    }
}

/// The labels of a path's nodes.
pub(crate) fn key_of(path: &Path) -> Key
    ensures { result.items ≡ drop 2 path.now.items }
{
    let mut key = Key::new();
    let [_, _, labels @ ..] = path.as_slice() else {
        return key;
    };
    for x in labels {
        key.push(*x);
    }
    key
}

/// The path over these strands whose nodes have these labels.
pub(crate) fn path_of(strands: &[u8], key: &Key) -> Path
    ensures { result.items ≡ path_of strands.now key.now.items }
{
    let mut path = begun(strands);
    for x in key.as_slice() {
        path.push(*x);
    }
    path
}

/// What each path over these strands begins with.
fn begun(strands: &[u8]) -> Path
    ensures { result.items ≡ path_of strands.now [] }
{
    let mut path = Path::new();
    path.push(0);
    if let [s, ..] = strands {
        path.push(*s);
    }
    path
}

/// The same strands again.
pub(crate) fn copied(strands: &Strands) -> Strands
    ensures { result.items ≡ strands.now.items }
{
    let mut copy = Strands::new();
    for s in strands.as_slice() {
        copy.push(*s);
    }
    copy
}
