//! Bytes that are lines of the grammar and bytes that are none.
use script_parse::parse_line;
use std::test::Fail;

#[test]
fn lines_of_the_grammar_are_read(rt: HostRuntime) -> Result<(), Fail> {
    let lines: [&[u8]; 34] = [
        b"begin begin create f step u64",
        b"begin p create f ~!/\\ f8 add f8:a u64:18446744073709551615 add u64:1 bool:true",
        b"begin p create f readers u64 readers 3 nodes 2 attr k v attr k v add u64:1 q4:1,2,3,4",
        b"begin p create f = u64 attr attr attr add u64:1 u64:2",
        b"begin p open f board u64",
        b"begin p open f b f8 readers 1 nodes 2 need k v need k w needkey k needkey j",
        b"begin p open f b u64 need needkey need",
        b"begin p reader r f",
        b"begin p writer w f",
        b"begin p entry h r u64:1 q4",
        b"begin p entrymut m w f8:u64:1~~~ bool",
        b"begin p get h",
        b"begin p get h v",
        b"begin p fresh h v",
        b"begin p update m bool:false",
        b"begin p loan l m",
        b"begin p discard l m",
        b"begin p put l 0 18446744073709551615",
        b"begin p publish l m",
        b"begin p fill l m u64:10",
        b"begin p keys f",
        b"begin p nodes f",
        b"begin p info f",
        b"begin p id t",
        b"begin p gen abcdefghijklmnop",
        b"step 0",
        b"drop p t",
        b"abandon p",
        b"words 0",
        b"begin p listen l bits door 65535",
        b"begin p listen l queue ~!:...",
        b"begin p notifier n bits listen",
        b"begin wait wait wait all block",
        b"expire p",
    ];
    for line in lines {
        assert!(rt; parse_line(rt.alloc(), line)?.is_some());
    }
    Ok(())
}

#[test]
fn other_bytes_are_no_line(rt: HostRuntime) -> Result<(), Fail> {
    let others: [&[u8]; 30] = [
        b"",
        b"step p\r",
        b"step  p",
        b" step p",
        b"step p ",
        b"step P",
        b"step abcdefghijklmnopq",
        b"begin p jump m",
        b"begin p gen m m",
        b"begin p get h v w",
        b"begin p update m u64:01",
        b"begin p update m u64:+1",
        b"begin p update m bool:maybe",
        b"begin p update m q4:1,2,3",
        b"begin p entry h r f8: u64",
        b"begin p put l 0 u64:1",
        b"words 18446744073709551616",
        b"begin p create f b\x7f u64",
        b"begin p create f b u32",
        b"begin p create f b u64 u64:1 u64:2 add",
        b"begin p create f b u64 nodes 1 readers 1",
        b"begin p create f b u64 attr k v nodes 1",
        b"begin p create f b u64 need k v",
        b"begin p open f b u64 needkey k need k v",
        b"begin p open f b u64 add u64:1 u64:2",
        b"begin p listen l bits door 65536",
        b"begin p listen l queue door 1",
        b"begin p notifier n queue a/b",
        b"begin p notifier n queue ..",
        b"begin p wait l try one",
    ];
    for bytes in others {
        assert!(rt; parse_line(rt.alloc(), bytes)?.is_none());
    }
    Ok(())
}
