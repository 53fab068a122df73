//! The rows of steps.

ghost use Rattle.std.specs.Prelude.{◌≡◌, [], ◌++◌, IfOk, OnOk};
ghost use Rattle.px_prover.specs.Normalising.{moves_in, moves_of};
ghost use Rattle.px_prover.specs.StepRows.{step_rows};

use crate::stages::Stage;
use px_terms::{NoMemory, Path, Row, Target};
use sqlite_items::Items;
use std::alloc::Global;

/// Puts the rows of these steps, of this side of an alternative or a fact, behind the others. It takes memory, and fails only
/// where there is none.
pub(crate) fn push_steps(
    alloc: Global,
    rows: &mut Items<Row>,
    target: Target,
    stages: &[Stage],
) -> Result<(), NoMemory>
    ensures { OnOk result (rows.new ≡ rows.old ++ step_rows target [] (moves_of stages.now)) }
{
    let mut path = Items::new(alloc);
    push_stages(alloc, rows, target, stages, &mut path)
}

/// Puts the rows of these steps, below the part at a path of this side, behind the others. It takes memory, and fails only where
/// there is none.
pub(crate) fn push_steps_at(
    alloc: Global,
    rows: &mut Items<Row>,
    target: Target,
    path: &[u32],
    stages: &[Stage],
) -> Result<(), NoMemory>
    ensures { OnOk result (rows.new ≡ rows.old ++ step_rows target path.now (moves_of stages.now)) }
{
    let mut path = Items::from_slice(alloc, path)?;
    push_stages(alloc, rows, target, stages, &mut path)
}

/// Puts the rows of these steps, below the part at a path, behind the others.
#[cycle(push_stages)]
fn push_stages(
    alloc: Global,
    rows: &mut Items<Row>,
    target: Target,
    stages: &[Stage],
    path: &mut Items<u32>,
) -> Result<(), NoMemory>
    ensures rows { OnOk result (rows.new ≡ rows.old ++ step_rows target path.old (moves_of stages.now)) }
    ensures path { OnOk result (path.new ≡ path.old) }
{
    for stage in stages {
        push_stage(alloc, rows, target, stage, path)?;
    }
    Ok(())
}

/// Puts the row of one step, or those below a child, behind the others.
#[cycle(push_stages)]
fn push_stage(
    alloc: Global,
    rows: &mut Items<Row>,
    target: Target,
    stage: &Stage,
    path: &mut Items<u32>,
) -> Result<(), NoMemory>
    ensures rows { OnOk result (rows.new ≡ rows.old ++ step_rows target path.old (moves_in stage.now)) }
    ensures path { OnOk result (path.new ≡ path.old) }
{
    match stage {
        Stage::Here(kind) => {
            rows.push(Row::Step {
                target,
                path: path_of(alloc, path.as_slice())?,
                kind: *kind,
            })?;
        }
        Stage::Below { child, stages } => {
            path.push(*child)?;
            push_stages(alloc, rows, target, stages.as_slice(), path)?;
            path.pop();
        }
    }
    Ok(())
}

/// The place that these child numbers lead to.
fn path_of(alloc: Global, children: &[u32]) -> Result<Path, NoMemory>
    ensures { IfOk result (λ path. path ≡ children.now) }
{
    let mut path = Path::new(alloc);
    for child in children {
        path.push(*child)?;
    }
    Ok(path)
}
