//! The plan, keys and details, by their rows.
ghost use Rattle.std.specs.Prelude.{◌≡◌, ◌<◌, ◌≤◌, length, All, IfOk};
ghost use Rattle.board_layout.specs.Layout.{IsShape};

use crate::same::same;
use board_layout::{
    BoardKey, CellPlace, F8, KeyMemory, KeyMemoryError, MAX_BLACKBOARD_KEY_ALIGNMENT,
    MAX_BLACKBOARD_KEY_SIZE, MAX_TYPE_NAME_LENGTH, PlanError, Shape, Text, TypeDetail, TypeVariant,
    ZeroCopySend, is_key, key_of, plan, same_keys,
};
use std::alloc::{AllocError, Global};
use std::fmt::Display;
use std::process::Abort;
use std::test::Fail;

// A shape of words.
fn shape(words: u64) -> Shape
    requires { 0 < words }
    ensures { IsShape result }
{
    Shape {
        words,
        alignment: 8,
    }
}

// One shape, or two of one kind.
fn shapes(alloc: Global, words: u64, twice: bool) -> Result<Vec<Shape>, AllocError>
    requires { 0 < words }
    ensures { IfOk result (λ shapes. All IsShape shapes.items) }
{
    let mut shapes = Vec::new(alloc);
    shapes.push(shape(words))?;
    if twice {
        shapes.push(shape(words))?;
    }
    Ok(shapes)
}

#[test]
fn plans_up_to_the_limit(rt: HostRuntime) -> Result<(), Fail> {
    let large = shapes(rt.alloc(), 268435454, false)?;
    let planned = plan(rt.alloc(), &large)?;
    same(&rt, &planned.payload, &4294967287);
    same(&rt, &planned.end, &536870910);
    let larger = shapes(rt.alloc(), 268435455, false)?;
    same(
        &rt,
        &plan(rt.alloc(), &larger).err(),
        &Some(PlanError::TooLarge),
    );
    Ok(())
}

#[test]
fn plans_two_cells(rt: HostRuntime) -> Result<(), Fail> {
    let two = shapes(rt.alloc(), 1, true)?;
    let planned = plan(rt.alloc(), &two)?;
    let wanted = [
        CellPlace {
            place: 0,
            first: 0,
            head: 2,
            words: 1,
        },
        CellPlace {
            place: 32,
            first: 4,
            head: 2,
            words: 1,
        },
    ];
    same(&rt, &planned.cells.as_slice(), &wanted.as_slice());
    same(&rt, &(planned.end, planned.payload), &(8, 78));
    Ok(())
}

// Through its bound, a value is written and read back.
fn comes_back<R: Abort, T: ZeroCopySend + PartialEq>(rt: &R, value: T, first: u64)
    requires { T.WORDS ≤ 4 }
{
    let mut words = [7; 4];
    let front = &mut words[..T::WORDS];
    value.to_words(front);
    same(rt, &front.first().copied(), &Some(first));
    assert!(rt; T::from_words(front) == value);
}

#[test]
fn values_are_words(rt: HostRuntime) {
    comes_back(&rt, true, 1);
    comes_back(&rt, 200u8, 200);
    comes_back(&rt, 65535u16, 65535);
    comes_back(&rt, 70000u32, 70000);
    comes_back(&rt, u64::MAX, u64::MAX);
    comes_back(&rt, -1i32, 4294967295);
    comes_back(&rt, -2i64, 18446744073709551614);
    comes_back(&rt, [3u64, 1, 4, 1], 3);
}

#[test]
fn types_are_told(rt: HostRuntime) {
    let fixed = TypeVariant::FixedSize;
    let rows = [
        (TypeDetail::new::<i32>(fixed), b"i32".as_slice(), 4, 4),
        (TypeDetail::new::<i64>(fixed), b"i64".as_slice(), 8, 8),
        (
            TypeDetail::new::<i64>(TypeVariant::Dynamic),
            b"i64".as_slice(),
            8,
            8,
        ),
        (TypeDetail::new::<bool>(fixed), b"bool".as_slice(), 1, 1),
        (
            TypeDetail::new::<[u64; 4]>(fixed),
            b"[u64; 4]".as_slice(),
            32,
            8,
        ),
        (TypeDetail::new::<F8>(fixed), b"f8".as_slice(), 8, 1),
    ];
    for (told, name, size, alignment) in rows {
        same(&rt, &told.type_name.as_bytes(), &name);
        same(&rt, &(told.size, told.alignment), &(size, alignment));
    }
    assert!(rt; TypeDetail::new::<i64>(fixed) != TypeDetail::new::<i64>(TypeVariant::Dynamic));
}

#[test]
fn keys_are_compared_by_their_type(rt: HostRuntime) -> Result<(), Fail> {
    let upper = KeyMemory::<64>::try_from(&F8 {
        bytes: *b"Temp\0\0\0\0",
    })?;
    let lower = KeyMemory::<64>::try_from(&F8 {
        bytes: *b"temp\0\0\0\0",
    })?;
    assert!(rt; KeyMemory::default_key_eq_comparison::<F8>(&upper, &lower));
    assert!(rt; !KeyMemory::default_key_eq_comparison::<u64>(&upper, &lower));
    assert!(rt; same_keys::<F8>(&upper, &lower) && !same_keys::<u64>(&upper, &lower));
    assert!(rt;
        is_key(
            &F8 {
                bytes: *b"TEMP\0\0\0\0"
            },
            &upper
        )
    );
    same(&rt, &key_of::<F8>(&upper).bytes, b"Temp\0\0\0\0");
    let yes = KeyMemory::<64>::try_from(&true)?;
    let no = KeyMemory::<64>::try_from(&false)?;
    assert!(rt; same_keys::<bool>(&yes, &yes) && !same_keys::<bool>(&yes, &no));
    let four = KeyMemory::<64>::try_from(&[3u64, 1, 4, 1])?;
    assert!(rt; is_key(&[3u64, 1, 4, 1], &four) && !is_key(&[3u64, 1, 4, 2], &four));
    let same = |a: &[u8], b: &[u8]| a == b;
    assert!(rt; !KeyMemory::key_eq_comparison(&upper, &lower, &same));
    assert!(rt; KeyMemory::key_eq_comparison(&upper, &upper, &same));
    Ok(())
}

pub(crate) fn prints<R: Abort, E: Display>(
    rt: &R,
    alloc: Global,
    error: &E,
    text: &str,
) -> Result<(), Fail> {
    let printed = format!(in alloc; "{error}")?;
    same(rt, &printed.as_str(), &text);
    Ok(())
}

#[test]
fn errors_print_their_names(rt: HostRuntime) -> Result<(), Fail> {
    let error = KeyMemoryError::ValueTooLarge;
    prints(&rt, rt.alloc(), &error, "KeyMemoryError::ValueTooLarge")?;
    let error = PlanError::TooLarge;
    prints(&rt, rt.alloc(), &error, "PlanError::TooLarge")?;
    Ok(())
}

#[test]
fn limits_are_as_published(rt: HostRuntime) {
    same(&rt, &MAX_TYPE_NAME_LENGTH, &256);
    same(
        &rt,
        &(MAX_BLACKBOARD_KEY_SIZE, MAX_BLACKBOARD_KEY_ALIGNMENT),
        &(64, 8),
    );
}
