//! The plan of a board: its cells, one after another.
ghost use Rattle.std.specs.Prelude.{◌≡◌, ◌+◌, ◌-◌, ◌*◌, ◌/◌, ◌<◌, ◌≤◌, ◌^◌, ◌↔◌, All, AllPairs, IfOk, IfSome, IfNone, IsErrOf, OnOk, OnSome};
ghost use Rattle.std.specs.List.{AllZip};
ghost use Rattle.board_layout.specs.Layout.{align, cell_bytes, cell_alignment, payload, places_from, end_from, place_at, IsShape, IsCellFor, LiesBefore, LiesWithin};

use crate::plan_types::{Plan, PlanError};
use crate::shape::{CellPlace, Shape};
use std::alloc::Global;

// The most bytes that a board may ask for.
const MAX_PAYLOAD: u64 = 4294967295;

// The least multiple of `unit` that is at least `at`.
fn aligned(unit: u64, at: u64) -> u64
    requires unit { (0 < unit) × (unit ≤ 4096) }
    requires at { at < 2 ^ 40 }
    ensures value { result ≡ align unit at }
    ensures bound { result ≤ at + (unit - 1) }
{
    (at + (unit - 1)) / unit * unit
}

// Where a cell of a shape lies.
fn place_of(at: u64, shape: &Shape) -> CellPlace
    requires at { at < 2 ^ 33 }
    requires shape { IsShape shape.now }
    ensures { result ≡ place_at at shape.now }
{
    let place = aligned(unit_of(shape), at);
    CellPlace {
        place,
        first: place / 8,
        head: aligned(shape.alignment, 16) / 8,
        words: shape.words,
    }
}

// The bytes of a cell.
fn bytes_of(shape: &Shape) -> u64
    requires small { shape.now.words < 2 ^ 29 }
    requires shape { IsShape shape.now }
    ensures { result ≡ cell_bytes shape.now }
{
    aligned(shape.alignment, 16) + 16 * shape.words
}

// What a cell's place is a multiple of.
fn unit_of(shape: &Shape) -> u64
    requires { IsShape shape.now }
    ensures { result ≡ cell_alignment shape.now }
{
    if shape.alignment < 8 {
        8
    } else {
        shape.alignment
    }
}

// The payload size of these shapes, where it isn't too large.
fn payload_of(shapes: &[Shape]) -> Option<u64>
    requires { All IsShape shapes.now }
    ensures value { IfSome result (λ p. p ≡ payload shapes.now) }
    ensures small { OnSome result (payload shapes.now < 2 ^ 32) }
    ensures large { IfNone result (2 ^ 32 ≤ payload shapes.now) }
{
    let mut payload = 0;
    for shape in shapes {
        // More words than this are too many bytes, and the sums below stay small.
        if shape.words > MAX_PAYLOAD / 16 {
            return None;
        }
        payload += bytes_of(shape) + (unit_of(shape) - 1);
        if payload > MAX_PAYLOAD {
            return None;
        }
    }
    Some(payload)
}

/// The cells of these shapes, one after another, each at the first place for it.
///
/// # Errors
/// `TooLarge` where the payload is above 4294967295 bytes; `OutOfMemory`.
pub fn plan(alloc: Global, shapes: &Vec<Shape>) -> Result<Plan, PlanError>
    requires { All IsShape shapes.now.items }

    // The plan is the one that the definitions give.
    ensures cells { IfOk result (λ p. p.cells.items ≡ places_from 0 shapes.now.items) }
    ensures end { IfOk result (λ p. p.end ≡ end_from 0 shapes.now.items / 8) }
    ensures payload { IfOk result (λ p. p.payload ≡ payload shapes.now.items) }

    // Each cell suits its shape, no two cells share a word, and all lie within the payload.
    ensures suited { IfOk result (λ p. AllZip IsCellFor shapes.now.items p.cells.items) }
    ensures disjoint { IfOk result (λ p. AllPairs LiesBefore p.cells.items) }
    ensures within { IfOk result (λ p. All (LiesWithin p.end) p.cells.items) }
    ensures fits { IfOk result (λ p. 8 * p.end ≤ p.payload) }

    // It is refused exactly where the payload is too large, want of memory aside.
    ensures ok { OnOk result (payload shapes.now.items < 2 ^ 32) }
    ensures large { IsErrOf result PlanError.TooLarge ↔ (2 ^ 32 ≤ payload shapes.now.items) }
{
    let Some(payload) = payload_of(shapes) else {
        return Err(PlanError::TooLarge);
    };
    let mut cells = Vec::new(alloc);
    let mut at = 0;
    for shape in shapes {
        let place = place_of(at, shape);
        at = place.place + bytes_of(shape);
        cells.push(place)?;
    }
    Ok(Plan {
        cells,
        end: at / 8,
        payload,
    })
}
