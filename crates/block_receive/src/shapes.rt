//! The shapes in which code blocks are decoded.
ghost use Rattle.std.specs.Prelude.{◌≡◌, ◌<◌};
ghost use Rattle.model_receiver.specs.TransportBlocks.{block_shape, check_kind};
ghost use Rattle.segmentation.specs.Plans.{IsPlan};

use crate::task::Task;
use qpp_table::win;
use segmentation::{fill, size};
use window_decode::{CheckKind, Shape};

/// Returns the check that each of `c` code blocks carries (36.212 5.1.2).
fn check_kind(c: usize) -> CheckKind
    ensures { result ≡ check_kind c }
{
    if c == 1 { CheckKind::A } else { CheckKind::B }
}

/// Returns the shape in which block `r`, below C, is decoded.
pub fn block_shape(task: &Task, r: usize) -> Shape
    requires { r < task.now.plan.c }
    ensures value { result ≡ block_shape task.now.plan task.now.limits r }
    ensures lawful { IsPlan task.now.plan }
{
    let plan = &task.plan;
    let limits = &task.limits;
    let k = size(plan, r);
    let kind = check_kind(plan.c);
    let windows = win(k, limits.windows);
    Shape::new(k, fill(plan, r), kind, windows, limits.limit).unwrap()
}
