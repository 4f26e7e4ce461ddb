//! Lines of driven scripts: which are the driver's, and which are of a plain script.
use script_exchanges::{Drive, DriveLine};
use script_feed::parse_drive;
use std::alloc::Global;
use std::process::Abort;
use std::test::Fail;

/// What a line is: outside the grammar, one of a plain script, a start over so many things, or a turn.
#[derive(Clone, Copy, Debug, PartialEq, Eq)]
enum Kind {
    Outside,
    Plain,
    Start(usize),
    Turn,
}

fn kind_of(line: Option<DriveLine>) -> Kind {
    match line {
        None => Kind::Outside,
        Some(DriveLine::Script(_)) => Kind::Plain,
        Some(DriveLine::Start { things, .. }) => Kind::Start(things.into_vec().len()),
        Some(DriveLine::Turn { .. }) => Kind::Turn,
    }
}

fn all_are(
    rt: &impl Abort,
    alloc: Global,
    drive: Drive,
    rows: &[(&'static str, Kind)],
) -> Result<(), Fail> {
    for (line, kind) in rows {
        let parsed = parse_drive(alloc, drive, line.as_bytes())?;
        assert_eq!(rt; kind_of(parsed), *kind, "{line}");
    }
    Ok(())
}

#[test]
fn lines_of_snapshots_and_of_watchers(rt: HostRuntime) -> Result<(), Fail> {
    let snapshots = [
        ("snap b h", Kind::Start(1)),
        ("snap turn snap turn", Kind::Start(2)),
        ("snap b h h h h h h h h h h h h h h h h", Kind::Start(16)),
        ("snap b h h h h h h h h h h h h h h h h h", Kind::Outside),
        ("snap b", Kind::Outside),
        ("snap", Kind::Outside),
        ("snap b  h", Kind::Outside),
        ("snap b h ", Kind::Outside),
        ("snap b a2345678901234567", Kind::Outside),
        ("snap b a234567890123456", Kind::Start(1)),
        ("snap b H", Kind::Outside),
        ("watch b e h", Kind::Outside),
        ("turn b", Kind::Turn),
        ("turn", Kind::Outside),
        ("turn b c", Kind::Outside),
        ("turn B", Kind::Outside),
        ("begin b get h", Kind::Plain),
        ("abandon snap", Kind::Plain),
        ("", Kind::Outside),
    ];
    let watchers = [
        ("watch b e h", Kind::Start(2)),
        ("watch b e", Kind::Outside),
        ("watch b e h h h h h h h h h h h h h h h h", Kind::Start(17)),
        ("watch b e h h h h h h h h h h h h h h h h h", Kind::Outside),
        ("snap b h", Kind::Outside),
        ("turn b", Kind::Turn),
        ("words 1", Kind::Plain),
    ];
    all_are(&rt, rt.alloc(), Drive::Snapshots, &snapshots)?;
    all_are(&rt, rt.alloc(), Drive::Watchers, &watchers)
}
