// Either way, opened and with a row filed as any way is. What is found then is asked of the way itself, since `Finding::find` asks for a proof
// that the row may choose.
ghost use Rattle.arrays.specs.Arrays.{Inside};

use super::*;
use heaps::Heaps;
use looking::Looking;

// Row 2 is row 1's only child, and row 1 is row 0's. No other number of the tree is read.
fn tree() -> TreeArrays
    ensures { Inside result.parents }
{
    let mut tree = TreeArrays::zeros();
    tree.parents[2] = 1;
    tree
}

// Row 2 has a head.
fn rows() -> RowArrays {
    let mut rows = RowArrays::zeros();
    rows.set_head(2, 1, 100, 2);
    rows
}

#[test]
fn listed(rt: HostRuntime) {
    let rows = rows();
    let mut looking = Looking::open(3, &tree());
    looking.file(&rows, 1, 2);
    assert_eq!(rt; looking.choose(&rows, 0).child, 0);
    assert_eq!(rt; looking.choose(&rows, 1).child, 2);
}

#[test]
fn heaped(rt: HostRuntime) {
    let rows = rows();
    let mut heaps = Heaps::open(3, &tree());
    heaps.file(&rows, 1, 2);
    assert_eq!(rt; waiting::choose(&rows, &mut heaps, 0, 0).child, 0);
    assert_eq!(rt; waiting::choose(&rows, &mut heaps, 1, 0).child, 2);
}
