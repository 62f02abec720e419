//! Copies of steps.

ghost use Rattle.std.specs.Prelude.{◌≡◌};

use crate::steps::{Core, Item, Step};
use arrayvec::ArrayVec;

fn copy_of_items<const N: usize>(items: &ArrayVec<Item, N>) -> ArrayVec<Item, N>
    ensures { result.items ≡ items.now.items }
{
    let mut copy = ArrayVec::new();
    for item in items.as_slice() {
        copy.push(*item);
    }
    copy
}

fn copy_of_step(step: &Step) -> Step
    ensures { result ≡ step.now }
{
    Step {
        op: step.op,
        prefix: step.prefix,
        line: step.line,
        results: copy_of_items(&step.results),
        sources: copy_of_items(&step.sources),
    }
}

/// The same steps again.
pub(crate) fn copy_of(core: &Core) -> Core
    ensures { result ≡ core.now }
{
    let mut steps = ArrayVec::new();
    for step in core.steps.as_slice() {
        steps.push(copy_of_step(step));
    }
    Core {
        steps,
        sizes: core.sizes,
        lanes: core.lanes,
    }
}
