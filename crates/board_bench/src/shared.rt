//! A race: one thread updates a cell, others get it until they have seen the last update.
ghost use Rattle.std.specs.Prelude.{ℕ, ◌≡◌, ◌+◌, ◌++◌, ◌^◌, ◌<◌, ◌≤◌, ◌↔◌, true, length, map, replicate, All, IfOk, OnOk};
ghost use denote.Param.Send.{IsSync};
ghost use Rattle.board_cell.specs.Passes.{ReaderSeen, notes_of};
ghost use Rattle.board_cell.specs.History.{IsLegal, history};
ghost use Rattle.board_bench.specs.Watchers.{AreReaders, AreWide, CanUpdate, HasReadTo, HasSeen, HasUpdated, HaveWatched, IsOf, counted_up, gets_of, numbered, passes_back};

use board_cell::{CellError, ReaderPass, ThreadedCell, WriterPass};
use std::alloc::{AllocError, Global};
use std::sync::Wait;
use std::thread;
use std::thread::Threads;

// So many words, 128 bytes, lie between what two threads write: then they share no line of the cache.
const APART: usize = 16;

/// A reader, its buffer, and how many gets it made.
#[derive(Drop)]
pub struct Watcher {
    /// The reader's pass.
    pub pass: ReaderPass,
    /// Where the words of a get go.
    pub out: Vec<u64>,
    /// How many gets were made; 2^64 - 1 for more.
    pub gets: u64,
    /// Keeps what two threads write apart.
    pub apart: [u64; APART],
}

/// A race that was run: the ends of the writer and of the readers, and how many gets these made.
#[derive(Drop)]
pub struct Outcome {
    /// The writer's pass.
    pub writer: WriterPass,
    /// The readers' passes.
    pub readers: Vec<ReaderPass>,
    /// How many gets were made; 2^64 - 1 for more.
    pub gets: u64,
}

impl Watcher {
    /// Whether the last word is this number or a later one. A value without words is seen at once.
    pub fn has_seen(&self, last: u64) -> bool
        ensures { (result ≡ true) ↔ HasSeen last self.now }
    {
        match self.out.last() {
            Some(word) => *word >= last,
            None => true,
        }
    }
}

/// Updates the cell with 1, 2 and so on up to the last number, in each word.
#[tactic(auto, using(crate::proofs::Turns::numbered_more))]
pub fn write(
    cell: &ThreadedCell,
    mut writer: WriterPass,
    mut words: Vec<u64>,
    last: u64,
) -> WriterPass
    requires { CanUpdate cell.now writer words.items last }
    ensures updated { HasUpdated cell.now writer result last }
    ensures values { result.published ≡ writer.published ++ numbered cell.now.width last }
{
    for i in 0..last {
        words.as_mut_slice().fill(i + 1);
        cell.update(&mut writer, &words);
    }
    writer
}

/// Gets until the last number is seen.
#[tactic(auto, using(crate::proofs::Reading::read_last_push))]
pub fn watch<R: Wait>(rt: &R, cell: &ThreadedCell, watcher: &mut Watcher, last: u64)
    requires { IsOf cell.now watcher.old }
    ensures kept { IsOf cell.now watcher.new }
    ensures seen { HasSeen last watcher.new }
{
    'gets: for _ in rt.forever() {
        if watcher.has_seen(last) {
            return;
        }
        cell.get(rt, &mut watcher.pass, &mut watcher.out);
        watcher.gets = watcher.gets.saturating_add(1);
    }
    // `forever` has no end.
    unreachable!()
}

// A buffer of as many zeros as a value has words, with room behind them.
fn zeros(alloc: Global, cell: &ThreadedCell) -> Result<Vec<u64>, AllocError>
    ensures items { IfOk result (λ v. v.items ≡ replicate cell.now.width 0) }
    ensures len { IfOk result (λ v. length v.items ≡ cell.now.width) }
{
    let words = cell.words() as usize;
    let mut out = Vec::with_capacity(alloc, words.saturating_add(APART))?;
    out.resize(words, 0)?;
    Ok(out)
}

/// So many readers of the cell.
///
/// # Errors
/// `AllocError` where memory is refused.
pub fn watchers_of(
    alloc: Global,
    cell: &ThreadedCell,
    first: &mut ReaderPass,
    readers: u64,
) -> Result<Vec<Watcher>, CellError>
    requires { first.old.cell ≡ cell.now.cell }
    ensures first { OnOk result (first.new.cell ≡ cell.now.cell) }
    ensures watchers { IfOk result (λ v. AreReaders cell.now readers v.items) }
{
    let mut watchers = Vec::new(alloc);
    for _ in 0..readers {
        let out = zeros(alloc, cell)?;
        watchers.push(Watcher {
            pass: cell.split(first),
            out,
            gets: 0,
            apart: [0; APART],
        })?;
    }
    Ok(watchers)
}

/// All readers, each in a thread of its own.
pub fn watch_all<R: Threads + Wait + Sync>(
    rt: &R,
    cell: &ThreadedCell,
    mut watchers: Vec<Watcher>,
    last: u64,
) -> Vec<Watcher>
    requires { All (IsOf cell.now) watchers.items }
    ensures count { length result.items ≡ length watchers.items }
    ensures kept { All (IsOf cell.now) result.items }
    ensures seen { All (HasSeen last) result.items }
{
    let threads = watchers.len().max(1);
    thread::for_each_mut(
        rt,
        watchers.as_mut_slice(),
        threads,
        &|_, watcher: &mut Watcher|
            requires { IsSync R.row × IsOf cell.now watcher.now }
            ensures { IsOf cell.entry.now watcher.exit.now × HasSeen last watcher.exit.now }
        { watch(rt, cell, watcher, last) },
    );
    watchers
}

/// The writer beside all readers.
pub fn race<R: Threads + Wait + Sync>(
    rt: &R,
    cell: &ThreadedCell,
    writer: WriterPass,
    words: Vec<u64>,
    watchers: Vec<Watcher>,
    last: u64,
) -> (WriterPass, Vec<Watcher>)
    requires writer { CanUpdate cell.now writer words.items last }
    requires watchers { All (IsOf cell.now) watchers.items }
    ensures writer { HasUpdated cell.now writer result.0 last }
    ensures values { result.0.published ≡ writer.published ++ numbered cell.now.width last }
    ensures count { length result.1.items ≡ length watchers.items }
    ensures kept { All (IsOf cell.now) result.1.items }
    ensures seen { All (HasSeen last) result.1.items }
{
    thread::join(
        rt,
        move || -> WriterPass
            requires { CanUpdate cell.now writer words.items last }
            ensures { HasUpdated cell.entry.now writer result last
                × (result.published ≡ writer.published ++ numbered cell.entry.now.width last) }
        { write(cell, writer, words, last) },
        move || -> Vec<Watcher>
            requires { IsSync R.row × All (IsOf cell.now) watchers.items }
            ensures { HaveWatched cell.entry.now last watchers.items result.items }
        { watch_all(rt, cell, watchers, last) },
    )
}

/// The readers' passes, the last reader's first, and how many gets they made.
///
/// # Errors
/// `OutOfMemory` where memory is refused.
#[tactic(auto, using(crate::proofs::Reading::pass_moved_all))]
pub fn passes_of(
    alloc: Global,
    cell: &ThreadedCell,
    mut watchers: Vec<Watcher>,
) -> Result<(Vec<ReaderPass>, u64), CellError>
    requires { All (IsOf cell.now) watchers.items }
    ensures cell { IfOk result (λ r. All (λ (p : ReaderSeen). p.cell ≡ cell.now.cell) r.0.items) }
    ensures count { IfOk result (λ r. length r.0.items ≡ length watchers.items) }
    ensures passes { IfOk result (λ r. r.0.items ≡ passes_back watchers.items) }
    ensures gets { IfOk result (λ r. r.1 ≡ gets_of r.0.items) }
{
    let mut passes = Vec::new(alloc);
    let mut gets = 0u64;
    'watchers: while let Some(watcher) = watchers.pop() {
        let Watcher {
            pass,
            out: _,
            gets: more,
            apart: _,
        } = watcher;
        gets = gets.saturating_add(more);
        passes.push(pass)?;
    }
    Ok((passes, gets))
}

/// A cell of this many words, a thread that makes so many updates, and so many that get until they have seen the last of them.
///
/// # Errors
/// `OutOfMemory` where memory is refused.
#[tactic(auto, using(crate::proofs::Reading::have_read_all))]
pub fn run_shared<R: Threads + Wait + Sync>(
    rt: &R,
    alloc: Global,
    width: u64,
    readers: u64,
    updates: u64,
) -> Result<Outcome, CellError>
    requires { updates < 2 ^ 40 }
    ensures updates { IfOk result (λ r. length r.writer.published ≡ updates + 1) }
    ensures wide { IfOk result (λ r. AreWide width r.writer.published) }
    ensures values { IfOk result (λ r. r.writer.published ≡ counted_up width updates) }
    ensures readers { IfOk result (λ r. length r.readers.items ≡ readers) }
    ensures gets { IfOk result (λ r. r.gets ≡ gets_of r.readers.items) }
    ensures legal { IfOk result (λ r.
        IsLegal (history r.writer.published (map notes_of r.readers.items))) }

    // Each reader's last get copied the last number, or a later one.
    ensures seen { IfOk result (λ r. All (HasReadTo width updates) r.readers.items) }
{
    let words = vec![in alloc; 0u64; width as usize]?;
    let (cell, writer, mut first) = ThreadedCell::new(alloc, &words)?;
    let watchers = watchers_of(alloc, &cell, &mut first, readers)?;
    let (mut writer, watchers) = race(rt, &cell, writer, words, watchers, updates);
    let (mut passes, gets) = passes_of(alloc, &cell, watchers)?;
    cell.meet(&mut writer, &mut first);
    cell.gather(&mut writer, &mut passes);
    Ok(Outcome {
        writer,
        readers: passes,
        gets,
    })
}
