ghost use Rattle.std.specs.Prelude.{◌≡◌, ℕ, ◌*◌};
ghost use Rattle.dataflow.specs.Walk.{walk_goes, walk_start, walk_after};
ghost use Rattle.dataflow.specs.WalkLaw.{walk_law};

use super::*;
use std::test::Fail;

/// Marks that walk through three cells, each with a word of its own.
struct Walk;

impl Block for Walk {
    type Fact = u64;

    type Scratch = [u64; 2];

    ghost IsBlock = { λ _. Unit };

    ghost IsScratch = { λ _ _. Unit };

    ghost number = { λ _ cell. 64 * cell };

    ghost size = { λ _. 3 };

    ghost width = { λ _. 3 };

    ghost goes = { λ _. walk_goes };

    ghost start = { λ _. walk_start };

    ghost after = { λ _. walk_after };

    ghost one_cause = { λ _. walk_law };

    fn size(&self) -> usize {
        3
    }

    fn width(&self) -> usize {
        3
    }

    fn goals(&self, at: usize) -> [usize; 2] {
        match at {
            0 => [1, 1],
            1 => [2, 3],
            _ => [1, 3],
        }
    }

    fn begin(&self, row: &mut [u64]) {
        row[0] = 1;
    }

    fn apply(&self, at: usize, scratch: &mut [u64; 2], row: &mut [u64]) {
        match at {
            0 => {}
            1 => {
                scratch[0] = row[0];
                scratch[1] = row[1];
                row[0] = 0;
                row[1] = scratch[0];
                row[2] = scratch[1];
            }
            _ => row[2] = 0,
        }
    }
}

#[test]
fn marks_walk_round_a_loop(rt: HostRuntime) -> Result<(), Fail> {
    let mut work = prepare(rt.alloc(), &Walk)?;
    let mut scratch = [7, 7];
    solve(&Walk, &mut scratch, &mut work);
    // The second time over what the first one left.
    solve(&Walk, &mut scratch, &mut work);
    // Before node 1 the mark has walked not at all or once; walked twice, it was taken away by node 2.
    for (node, row) in [
        (0, [1, 0, 0]),
        (1, [1, 1, 0]),
        (2, [0, 1, 1]),
        (3, [0, 1, 1]),
    ] {
        assert_eq!(rt; work.row(node), row.as_slice(), "at {node}");
    }
    Ok(())
}
