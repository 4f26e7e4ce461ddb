//! Lines as a reader gives them out of a source.
use script_loop::{Fetched, LineReader, MemorySource};
use std::alloc::Global;
use std::test::Fail;

// The lines of the bytes, each with a bar behind it, as a reader gives them out.
fn lines_barred(alloc: Global, bytes: &[u8], piece: usize) -> Result<Vec<u8>, Fail> {
    let mut source = MemorySource::new(Vec::from_slice(alloc, bytes)?, piece, Vec::new(alloc));
    let mut reader = LineReader::new(alloc)?;
    let mut out = Vec::new(alloc);
    for _ in 0..bytes.len() + 1 {
        match reader.next(&mut source)? {
            Fetched::Line => {
                out.extend_from_slice(reader.line())?;
                out.push(b'|')?;
            }
            Fetched::Long => return Err("long")?,
            Fetched::End => return Ok(out),
        }
    }
    Err("no end")?
}

#[test]
fn lines_are_given_out_in_any_pieces(rt: HostRuntime) -> Result<(), Fail> {
    let cases: [(&[u8], &[u8]); 6] = [
        (b"", b""),
        (b"\n", b"|"),
        (b"a\n\nbc\n", b"a||bc|"),
        (b"a\nbc", b"a|bc|"),
        (b"\r\n", b"\r|"),
        (b"ab", b"ab|"),
    ];
    for (bytes, lines) in cases {
        for piece in [0, 1, 2] {
            assert_eq!(rt;
                lines_barred(rt.alloc(), bytes, piece)?.as_slice(),
                lines,
                "pieces of {piece}"
            );
        }
    }
    Ok(())
}
