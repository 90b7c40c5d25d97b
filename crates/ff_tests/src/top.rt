// Words and exit numbers. Whole runs are the table of `ff_rows`.
use ff_top::{Status, Word};
use std::test::Fail;

#[test]
fn words(rt: HostRuntime) -> Result<(), Fail> {
    let word = Word::from_text(rt.alloc(), "check")?;
    assert!(rt; word.is("check"));
    assert!(rt; !word.is("checks"));
    assert_eq!(rt; word.text.bytes.as_slice(), b"check".as_slice());
    Ok(())
}

#[test]
fn exits(rt: HostRuntime) {
    assert_eq!(rt; Status::Done.exit(), 0);
    assert_eq!(rt; Status::BadInput.exit(), 1);
    assert_eq!(rt; Status::Premise.exit(), 2);
    assert_eq!(rt; Status::Limit.exit(), 3);
    assert_eq!(rt; Status::ReadFault.exit(), 4);
    assert_eq!(rt; Status::WriteFault.exit(), 5);
    assert_eq!(rt; Status::NoMemory.exit(), 6);
    assert_eq!(rt; Status::Usage.exit(), 64);
}
