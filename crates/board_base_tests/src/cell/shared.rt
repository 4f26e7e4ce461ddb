//! A writer and two readers in one scope. The writer's thread gives back its pass and the receipt of its last update,
//! of which a reader then learns.
ghost use Rattle.std.specs.Prelude.{◌≡◌, ◌+◌, ◌^◌, ◌<◌, ◌∷◌, [], length, IfOk};

use crate::same::same;
use board_cell::{OfCell, ReaderPass, Receipt, ThreadedCell, WriterPass};
use std::alloc::AllocError;
use std::sync::Wait;
use std::test::*;
use std::thread;
use std::thread::Threads;

fn write_all(
    cell: &ThreadedCell,
    mut writer: WriterPass,
    mut words: Vec<u64>,
) -> (WriterPass, Receipt)
    requires { (writer.cell ≡ cell.now.cell) × (length words.items ≡ cell.now.width) × (length writer.published < 2 ^ 32) }
    ensures { (result.0.cell ≡ writer.cell) × (result.1.cell ≡ writer.cell) }
{
    for i in 0..1000u64 {
        words.as_mut_slice().fill(i);
        cell.update(&mut writer, &words);
    }
    let receipt = cell.receipt(&mut writer);
    (writer, receipt)
}

fn all_same(words: &Vec<u64>) -> bool {
    match words.first() {
        Some(first) => words.iter().all(|w| w == first),
        None => true,
    }
}

fn read_all(cell: &ThreadedCell, mut reader: ReaderPass, mut out: Vec<u64>) -> (ReaderPass, bool)
    requires { (reader.cell ≡ cell.now.cell) × (length out.items ≡ cell.now.width) }
    ensures { result.0.cell ≡ reader.cell }
{
    let mut right = true;
    for _ in 0..1000u32 {
        if cell.try_get(&mut reader, 8, &mut out).is_ok() && !all_same(&out) {
            right = false;
        }
    }
    (reader, right)
}

fn run<R: Threads + Wait + Sync>(
    rt: &R,
    cell: &ThreadedCell,
    writer: WriterPass,
    first: ReaderPass,
    second: ReaderPass,
    words: Vec<u64>,
    one: Vec<u64>,
    two: Vec<u64>,
) -> Result<(WriterPass, ReaderPass, ReaderPass, bool), AllocError>
    requires cell { (writer.cell ≡ cell.now.cell) × (first.cell ≡ cell.now.cell) × (second.cell ≡ cell.now.cell) }
    requires width { (length words.items ≡ cell.now.width) × (length one.items ≡ cell.now.width)
        × (length two.items ≡ cell.now.width) }
    requires room { length writer.published < 2 ^ 32 }
    ensures { IfOk result (λ r. (r.0.cell ≡ cell.now.cell) × (r.1.cell ≡ cell.now.cell) × (r.2.cell ≡ cell.now.cell)) }
{
    thread::scope(
        thread::scope_env(),
        rt,
        |scope| -> Result<(WriterPass, ReaderPass, ReaderPass, bool), AllocError>
            requires { (writer.cell ≡ cell.now.cell) × (first.cell ≡ cell.now.cell) × (second.cell ≡ cell.now.cell)
                × (length words.items ≡ cell.now.width) × (length one.items ≡ cell.now.width)
                × (length two.items ≡ cell.now.width) × (length writer.published < 2 ^ 32) }
            ensures { IfOk result (λ r.
                (r.0.cell ≡ cell.entry.now.cell) × (r.1.cell ≡ cell.entry.now.cell)
                × (r.2.cell ≡ cell.entry.now.cell)) }
        {
            let a = scope.spawn_with(
                OfCell::new(cell),
                move ||
                    requires { (writer.cell ≡ cell.now.cell) × (length words.items ≡ cell.now.width)
                        × (length writer.published < 2 ^ 32) }
                    ensures { (result.0.cell ≡ writer.cell) × (result.1.cell ≡ writer.cell) }
                { write_all(cell, writer, words) },
            )?;
            let b = scope.spawn_with(
                OfCell::new(cell),
                move ||
                    requires { (first.cell ≡ cell.now.cell) × (length one.items ≡ cell.now.width) }
                    ensures { result.0.cell ≡ first.cell }
                { read_all(cell, first, one) },
            )?;
            let c = scope.spawn_with(
                OfCell::new(cell),
                move ||
                    requires { (second.cell ≡ cell.now.cell) × (length two.items ≡ cell.now.width) }
                    ensures { result.0.cell ≡ second.cell }
                { read_all(cell, second, two) },
            )?;
            let (writer, receipt) = a.join(rt);
            let (mut first, right) = b.join(rt);
            cell.learn(&mut first, receipt);
            let (second, also) = c.join(rt);
            Ok((writer, first, second, right && also))
        },
    )
}

#[test]
fn each_value_that_a_reader_gets_is_whole(rt: HostRuntime) -> Result<(), Fail> {
    let words = vec![in rt.alloc(); 0u64; 4]?;
    let (cell, writer, mut first) = ThreadedCell::new(rt.alloc(), &words)?;
    let second = cell.split(&mut first);
    let (one, two) = (words.clone()?, words.clone()?);
    let mut out = words.clone()?;
    let (mut writer, mut first, mut second, right) = run(
        &rt, &cell, writer, first, second, words, one, two,
    )?;
    assert!(rt; right);
    same(&rt, &cell.get(&rt, &mut first, &mut out), &1001);
    cell.meet(&mut writer, &mut second);
    let mut readers = Vec::new(rt.alloc());
    readers.push(first)?;
    readers.push(second)?;
    let all = cell.gather(&mut writer, &mut readers);
    same(&rt, &all.generation, &1001);
    Ok(())
}

fn update_once(cell: &ThreadedCell, mut writer: WriterPass, words: Vec<u64>) -> WriterPass
    requires { (writer.cell ≡ cell.now.cell) × (length words.items ≡ cell.now.width) × (length writer.published < 2 ^ 32) }
    ensures { result.cell ≡ writer.cell }
{
    cell.update(&mut writer, &words);
    writer
}

fn read_once(cell: &ThreadedCell, mut reader: ReaderPass, mut out: Vec<u64>) -> ReaderPass
    requires { (reader.cell ≡ cell.now.cell) × (length out.items ≡ cell.now.width) }
    ensures { result.cell ≡ reader.cell }
{
    let _ = cell.try_get(&mut reader, 8, &mut out);
    reader
}

fn last_receipt(cell: &ThreadedCell, mut writer: WriterPass) -> Receipt
    requires { writer.cell ≡ cell.now.cell }
    ensures { result.cell ≡ writer.cell }
{
    cell.receipt(&mut writer)
}

/// Three threads: one updates and gives back its pass, one reads and gives back its own, and one is handed the writer's
/// pass and gives back a receipt, of which the reader then learns.
fn give_back<R: Threads + Wait + Sync>(
    rt: &R,
    cell: &ThreadedCell,
    writer: WriterPass,
    reader: ReaderPass,
    words: Vec<u64>,
    out: Vec<u64>,
) -> Result<ReaderPass, AllocError>
    requires cell { (writer.cell ≡ cell.now.cell) × (reader.cell ≡ cell.now.cell) }
    requires width { (length words.items ≡ cell.now.width) × (length out.items ≡ cell.now.width) }
    requires room { length writer.published < 2 ^ 32 }
    ensures { IfOk result (λ pass. pass.cell ≡ cell.now.cell) }
{
    thread::scope(
        thread::scope_env(),
        rt,
        |scope| -> Result<ReaderPass, AllocError>
            requires { (writer.cell ≡ cell.now.cell) × (reader.cell ≡ cell.now.cell)
                × (length words.items ≡ cell.now.width) × (length out.items ≡ cell.now.width)
                × (length writer.published < 2 ^ 32) }
            ensures { IfOk result (λ pass. pass.cell ≡ cell.entry.now.cell) }
        {
            let a = scope.spawn_with(
                OfCell::new(cell),
                move ||
                    requires { (writer.cell ≡ cell.now.cell) × (length words.items ≡ cell.now.width)
                        × (length writer.published < 2 ^ 32) }
                    ensures { result.cell ≡ writer.cell }
                { update_once(cell, writer, words) },
            )?;
            let b = scope.spawn_with(
                OfCell::new(cell),
                move ||
                    requires { (reader.cell ≡ cell.now.cell) × (length out.items ≡ cell.now.width) }
                    ensures { result.cell ≡ reader.cell }
                { read_once(cell, reader, out) },
            )?;
            let writer = a.join(rt);
            let c = scope.spawn_with(
                OfCell::new(cell),
                move ||
                    requires { writer.cell ≡ cell.now.cell }
                    ensures { result.cell ≡ writer.cell }
                { last_receipt(cell, writer) },
            )?;
            let mut reader = b.join(rt);
            let receipt = c.join(rt);
            cell.learn(&mut reader, receipt);
            Ok(reader)
        },
    )
}

#[test]
fn passes_and_receipts_come_back_alone(rt: HostRuntime) -> Result<(), Fail> {
    let words = vec![in rt.alloc(); 7u64; 4]?;
    let (cell, writer, reader) = ThreadedCell::new(rt.alloc(), &words)?;
    let (mut out, updated) = (words.clone()?, vec![in rt.alloc(); 9u64; 4]?);
    let mut reader = give_back(&rt, &cell, writer, reader, updated, words)?;
    same(&rt, &cell.get(&rt, &mut reader, &mut out), &2);
    assert!(rt; out.iter().all(|word| *word == 9));
    Ok(())
}
