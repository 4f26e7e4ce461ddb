//! The calls, each through its accesses, in a cell of two words that begins with word 4: its copies begin with words 6 and 8.
use crate::same::same;
use board_cell::{
    Access, CellShape, FreshCall, GetCall, PublishCall, PutCall, run_fresh, run_get, run_publish,
    run_put,
};
use std::test::*;

const SHAPE: CellShape = CellShape {
    first: 4,
    head: 2,
    words: 2,
};

#[test]
fn a_get_that_meets_one_update_tries_again(rt: HostRuntime) -> Result<(), Fail> {
    let alloc = rt.alloc();
    let mut call = GetCall::new(SHAPE, vec![in alloc; 0, 0]?);
    let mut accesses = Vec::new(alloc);
    run_get(&mut call, &[1, 5, 6, 2, 7, 9, 2], &mut accesses)?;
    let expected = [4, 6, 7, 4, 8, 9, 4];
    same(&rt, &accesses.len(), &expected.len());
    for (access, word) in accesses.iter().zip(expected) {
        same(&rt, access, &Access::Read { word });
    }
    same(&rt, &call.generation(), &2);
    same(&rt, &call.words().as_slice(), &[7, 9].as_slice());
    Ok(())
}

#[test]
fn the_calls_of_one_access_run_to_their_ends(rt: HostRuntime) -> Result<(), Fail> {
    let mut accesses = Vec::new(rt.alloc());
    let mut put = PutCall::new(SHAPE, 3, 1, 9);
    run_put(&mut put, &mut accesses)?;
    let mut publish = PublishCall::new(SHAPE, 3);
    run_publish(&mut publish, &mut accesses)?;
    let mut fresh = FreshCall::new(SHAPE, 3);
    same(&rt, &run_fresh(&mut fresh, &[], &mut accesses)?, &None);
    same(
        &rt,
        &run_fresh(&mut fresh, &[4, 3], &mut accesses)?,
        &Some(false),
    );
    let expected = [
        Access::Write { word: 9, value: 9 },
        Access::Write { word: 4, value: 4 },
        Access::Read { word: 4 },
    ];
    same(&rt, &accesses.as_slice(), &expected.as_slice());
    Ok(())
}
