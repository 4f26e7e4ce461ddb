//! Descriptions and their bytes.
ghost use Rattle.std.specs.Prelude.{IfOk};
ghost use Rattle.board_concepts.specs.DescriptionSpelling.{IsWritable};

use crate::same::same;
use board_concepts::serialize::{Postcard, Recommended, Serialize};
use board_concepts::{
    AttributeSet, AttributeSpecifier, Description, no_spelling_begins_another,
    what_is_written_reads_back,
};
use board_layout::{TypeDetail, TypeVariant};
use board_names::{DeserializeError, ServiceName};
use std::alloc::Global;
use std::process::Abort;
use std::test::Fail;

const BYTES: [u8; 13] = [
    0x01, 0x01, 0x66, 0x00, 0x03, 0x75, 0x36, 0x34, 0x08, 0x08, 0x08, 0x14, 0x00,
];

// The service `f` in version 1, with keys of type `u64`, 20 nodes and one writer.
fn described(max_readers: u64, attributes: AttributeSet) -> Result<Description, Fail>
    ensures { IfOk result IsWritable }
{
    Ok(Description {
        version: 1,
        name: ServiceName::new("f")?,
        key: TypeDetail::new::<u64>(TypeVariant::FixedSize),
        max_readers,
        max_nodes: 20,
        max_writers: 1,
        attributes,
    })
}

#[test]
fn a_description_is_thirteen_bytes(rt: HostRuntime) -> Result<(), Fail> {
    no_spelling_begins_another();
    what_is_written_reads_back();
    let description = described(8, AttributeSet::new(rt.alloc()))?;
    let bytes = Postcard::serialize(rt.alloc(), &description)?;
    same(&rt, &bytes.as_slice(), &BYTES.as_slice());
    let read = Recommended::deserialize(rt.alloc(), &bytes)?;
    same(
        &rt,
        &(
            read.version,
            read.max_readers,
            read.max_nodes,
            read.max_writers,
        ),
        &(1, 8, 20, 1),
    );
    assert!(rt; read.name == description.name && read.key == description.key);
    same(&rt, &read.attributes.len(), &0);
    Ok(())
}

const OF_VERSION_TWO: [u8; 14] = [
    0x02, 0x01, 0x66, 0x00, 0x03, 0x75, 0x36, 0x34, 0x08, 0x08, 0x08, 0x14, 0x01, 0x00,
];

#[test]
fn version_two_spells_the_writers(rt: HostRuntime) -> Result<(), Fail> {
    let alloc = rt.alloc();
    let old = Postcard::deserialize(alloc, &BYTES)?;
    let one = old.upgraded();
    let bytes = Postcard::serialize(alloc, &one)?;
    same(&rt, &bytes.as_slice(), &OF_VERSION_TWO.as_slice());
    let three = Description {
        max_writers: 3,
        ..one
    };
    let bytes = Postcard::serialize(alloc, &three)?;
    same(&rt, &bytes.get(12..), &Some([0x03, 0x00].as_slice()));
    let read = Postcard::deserialize(alloc, &bytes)?;
    same(&rt, &(read.version, read.max_writers), &(2, 3));
    for end in 0..14 {
        let (front, _) = OF_VERSION_TWO.split_at(end);
        assert!(rt; is_refused::<Postcard>(alloc, front), "{end} bytes");
    }
    Ok(())
}

#[test]
fn three_hundred_readers_are_two_bytes(rt: HostRuntime) -> Result<(), Fail> {
    let attributes = AttributeSpecifier::new(rt.alloc()).define("k", "val")?;
    let description = described(300, attributes.into_set())?;
    let bytes = Postcard::serialize(rt.alloc(), &description)?;
    let wanted = [0xAC, 0x02, 0x14, 0x01, 0x01, b'k', 0x03, b'v', b'a', b'l'];
    same(&rt, &bytes.get(10..), &Some(wanted.as_slice()));
    let read = Postcard::deserialize(rt.alloc(), &bytes)?;
    same(
        &rt,
        &read.attributes.pair_at(0),
        &Some((b"k".as_slice(), b"val".as_slice())),
    );
    Ok(())
}

// Whether bytes are refused as no description.
fn is_refused<S: Serialize>(alloc: Global, bytes: &[u8]) -> bool {
    match S::deserialize(alloc, bytes) {
        Ok(_) => false,
        Err(error) => error == DeserializeError::InternalError,
    }
}

#[test]
fn what_spells_nothing_is_refused(rt: HostRuntime) {
    let alloc = rt.alloc();
    for end in 0..13 {
        let (front, _) = BYTES.split_at(end);
        assert!(rt; is_refused::<Postcard>(alloc, front), "{end} bytes");
    }
    let rows: [&[u8]; 6] = [
        // a byte more
        &[
            0x01, 0x01, 0x66, 0x00, 0x03, 0x75, 0x36, 0x34, 0x08, 0x08, 0x08, 0x14, 0x00, 0x00,
        ],
        // the version in a longer spelling
        &[
            0x81, 0x00, 0x01, 0x66, 0x00, 0x03, 0x75, 0x36, 0x34, 0x08, 0x08, 0x08, 0x14, 0x00,
        ],
        // a version of 3
        &[
            0x03, 0x01, 0x66, 0x00, 0x03, 0x75, 0x36, 0x34, 0x08, 0x08, 0x08, 0x14, 0x01, 0x00,
        ],
        // a variant of 2
        &[
            0x01, 0x01, 0x66, 0x02, 0x03, 0x75, 0x36, 0x34, 0x08, 0x08, 0x08, 0x14, 0x00,
        ],
        // 2^63 attributes
        &[
            0x01, 0x01, 0x66, 0x00, 0x03, 0x75, 0x36, 0x34, 0x08, 0x08, 0x08, 0x14, 0x80, 0x80,
            0x80, 0x80, 0x80, 0x80, 0x80, 0x80, 0x80, 0x01,
        ],
        // a name of 2^63 bytes
        &[
            0x01, 0x80, 0x80, 0x80, 0x80, 0x80, 0x80, 0x80, 0x80, 0x80, 0x01, 0x66,
        ],
    ];
    for (row, bytes) in rows.iter().enumerate() {
        assert!(rt; is_refused::<Postcard>(alloc, bytes), "row {row}");
    }
}

// With one byte changed, the bytes are refused, or spell a description that spells them.
fn comes_back(alloc: Global, bytes: &[u8]) -> Result<bool, Fail> {
    match Postcard::deserialize(alloc, bytes) {
        Ok(description) => {
            let again = Postcard::serialize(alloc, &description)?;
            Ok(again.as_slice() == bytes)
        }
        Err(error) => Ok(error == DeserializeError::InternalError),
    }
}

#[test]
fn a_changed_byte_is_no_fault(rt: HostRuntime) -> Result<(), Fail> {
    for index in 0..13 {
        for byte in [0x00, 0x7F, 0x80, 0xFF] {
            let mut bytes = BYTES;
            bytes[index] = byte;
            assert!(rt; comes_back(rt.alloc(), &bytes)?, "byte {byte} at {index}");
        }
    }
    Ok(())
}
