// From the bytes of a plan to its verdict.
ghost use Rattle.std.specs.Prelude.{◌≡◌, take, IfOk, IfErr, IsOk};
ghost use Rattle.layouts.specs.Mesh.{meaning_of};
ghost use Rattle.codec.specs.Heads.{values_of};
ghost use Rattle.grid.specs.Blank.{BlankTables};
ghost use Rattle.plan.specs.Verdicts.{mesh_in, sizes_in, IsAccepted, own_head, verdict_of, Sums};
ghost use Rattle.plan.specs.declared.check.NoSummary.TheVariants.{Fault, OutOfMemory};

use crate::fault::LoadFault;
use crate::line::{Summary, Verdict};
use crate::load::{accepted_head, load};
use crate::summary::summary;
use codec::head::{GridSizes, Head, HeadNumbers, read_head, rule_numbered};
use grid::grid::Grid;
use grid::make::MakeError;
use layouts::mesh::Mesh;
use std::alloc::{AllocError, Global};

/// How many bytes of a plan `check` looks at.
pub const LIMIT: usize = 4096;

// The bytes of a plan that are looked at.
#[tactic(auto, using(std::proofs::lemmas::List::take_min))]
fn first_bytes(plan: &[u8]) -> &[u8]
    ensures { result.now ≡ take LIMIT plan.now }
{
    &plan[..LIMIT.min(plan.len())]
}

// The grid that a head asks for.
fn sizes_in(head: &Head) -> GridSizes
    ensures { result ≡ sizes_in head.now }
{
    GridSizes {
        lanes: head.lanes,
        depth: head.depth,
        capacity: head.capacity,
    }
}

// The head of a plan, if it is accepted.
fn own_head(plan: &[u8]) -> Result<HeadNumbers, LoadFault>
    ensures value { result ≡ own_head plan.now }
    ensures accepted { IfOk result IsAccepted }
{
    let numbers = read_head(plan)?;
    accepted_head(plan, sizes_in(&numbers.head()))
}

// A blank grid of the mesh and the sizes that an accepted head asks for.
fn blank_grid(heap: Global, numbers: &HeadNumbers) -> Result<Grid<Mesh>, AllocError>
    requires { IsAccepted numbers.now }
    ensures layout { IfOk result
        (λ g. mesh_in (values_of numbers.now) ≡ Some (meaning_of g.layout)) }
    ensures blank { IfOk result (λ g. BlankTables (meaning_of g.layout).links
        numbers.now.lanes.value numbers.now.depth.value numbers.now.capacity.value g.tables) }
{
    let head = numbers.head();
    // an accepted head asks for a mesh and a grid that can be made, so only memory can be wanting
    let rule = rule_numbered(head.rule).unwrap();
    let mesh = Mesh::new(rule, head.width, head.height).unwrap();
    match Grid::blank(heap, mesh, head.lanes, head.depth, head.capacity) {
        Ok(grid) => Ok(grid),
        Err(MakeError::Refused(_)) => unreachable!(),
        Err(MakeError::OutOfMemory) => Err(AllocError),
    }
}

// Why a plan has no summary.
#[derive(Clone, Copy)]
enum NoSummary {
    // It does not load.
    Fault(LoadFault),
    // There is no memory for the tables of its grid.
    OutOfMemory,
}

impl From<LoadFault> for NoSummary {
    ghost from_gives = { λ fault e. e ≡ Fault fault };

    fn from(fault: LoadFault) -> NoSummary {
        NoSummary::Fault(fault)
    }
}

impl From<AllocError> for NoSummary {
    ghost from_gives = { λ _ e. e ≡ OutOfMemory };

    fn from(_refused: AllocError) -> NoSummary {
        NoSummary::OutOfMemory
    }
}

// What the grid that a plan asks for bears once the plan is loaded.
fn summed(heap: Global, plan: &[u8]) -> Result<Summary, NoSummary>
    ensures { Sums plan.now result }
{
    let head = own_head(plan)?;
    let mut grid = blank_grid(heap, &head)?;
    load(&mut grid, plan)?;
    Ok(summary(&grid))
}

/// The verdict on a plan, which is loaded on a blank grid of its own: the mesh of its rule, width and height, with its lanes, depth and capacity.
/// Only its first 4096 bytes are looked at; no verdict rests on a later one.
///
/// Fails only where there is no memory for the tables of the grid that an accepted head asks for.
pub fn check(heap: Global, plan: &[u8]) -> Result<Verdict, AllocError>
    ensures verdict { IfOk result (λ verdict. verdict ≡ verdict_of (take LIMIT plan.now)) }
    ensures whole { IfOk result (λ verdict. verdict ≡ verdict_of plan.now) }
    ensures no_memory { IfErr result (λ _. IsOk (own_head (take LIMIT plan.now))) }
{
    match summed(heap, first_bytes(plan)) {
        Ok(summary) => Ok(Ok(summary)),
        Err(NoSummary::Fault(fault)) => Ok(Err(fault)),
        Err(NoSummary::OutOfMemory) => Err(AllocError),
    }
}
