//! What an error of cells prints.
use crate::same::same;
use board_cell::CellError;
use std::test::*;

#[test]
fn an_error_prints_its_name(rt: HostRuntime) -> Result<(), Fail> {
    let error = CellError::OutOfMemory;
    let printed = format!(in rt.alloc(); "{error}")?;
    same(&rt, &printed.as_str(), &"CellError::OutOfMemory");
    Ok(())
}
