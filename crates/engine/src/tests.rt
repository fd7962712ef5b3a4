// A short run by each way, and by one such as another crate may have.
ghost use Rattle.std.specs.Prelude.{ℕ};

use super::*;
use heaps::Heaps;
use looking::Looking;
use rules::Choice;
use std::process::Abort;

// A way that has `Finding` and not `FindingByTags`: another way is called for it.
#[derive(Drop)]
struct Over<F>(F);

impl<F: Finding> Finding for Over<F> {
    ghost filed = { λ over. F.filed over.0 };

    ghost keeps = { λ over. F.keeps over.0 };

    fn open(count: usize, tree: &TreeArrays) -> Over<F> {
        Over(F::open(count, tree))
    }

    fn file(&mut self, rows: &RowArrays, p: usize, r: usize) {
        self.0.file(rows, p, r);
    }

    fn find(&mut self, rows: &RowArrays, p: usize) -> Choice {
        self.0.find(rows, p)
    }
}

// A packet of each of two classes with the same share, then a second one of the first class. The line has finished one, sends the next, and
// one waits.
fn halves<F: Finding>(rt: &impl Abort) {
    let mut order = [9; 4];
    let mut report = [9; 15];
    let mut lags = [9; 3];
    let sent = run::<F>(
        &[1, 10, 20],
        &[0, 1, 1],
        &[0, 420, 420],
        &[10, 20, 10, 0],
        &[100, 100, 100, 0],
        &mut order,
        &mut report,
        &mut lags,
        &mut [0; 4],
    );
    assert_eq!(rt; sent.ok(), Some(2));
    assert_eq!(rt; order, [0, 1, 9, 9]);
    assert_eq!(rt;
        report,
        [
            100, 0, 0, 168000, 2, 100, 168000, 336000, 0, 1, 0, 84000, 252000, 0, 1
        ]
    );
    assert_eq!(rt; lags, [0, -42000, 42000]);
}

#[test]
fn looked_through(rt: HostRuntime) {
    halves::<Looking>(&rt);
}

#[test]
fn by_heaps(rt: HostRuntime) {
    halves::<Heaps>(&rt);
}

#[test]
fn by_another_crates_way(rt: HostRuntime) {
    halves::<Over<Heaps>>(&rt);
}
