//! Bytes that are no patch file.

use super::*;

#[test]
fn truncated_files(rt: HostRuntime) -> Result<(), Fail> {
    let alloc = rt.alloc();
    let square = square();
    for length in 0..square.len() {
        let fault = file_fault(alloc, &square[..length])?;
        assert_eq!(rt; fault, Some(FileFault::Truncated(length as u64)));
    }
    Ok(())
}

#[test]
fn bytes_behind_a_file(rt: HostRuntime) -> Result<(), Fail> {
    let alloc = rt.alloc();
    let mut longer = square().to_vec(alloc)?;
    longer.push(0)?;
    assert_eq!(rt; file_fault(alloc, &longer)?, Some(FileFault::Trailing(245)));
    longer.extend_from_slice(&[0; 9])?;
    assert_eq!(rt; file_fault(alloc, &longer)?, Some(FileFault::Trailing(245)));
    Ok(())
}

#[test]
fn faults_of_files(rt: HostRuntime) -> Result<(), Fail> {
    let alloc = rt.alloc();
    for (changes, fault) in [
        (&[(242, 5)][..], FileFault::CornerIndex(1, 3, 5)),
        (&[(4, 7)][..], FileFault::Version(7)),
        (&[(8, 1)][..], FileFault::NodeCount(1)),
        // Two faults: the earlier unit's is the answer.
        (&[(4, 7), (242, 5)][..], FileFault::Version(7)),
        // Two faults of one patch field: its ends come before the counts.
        (&[(76, 9), (84, 0)][..], FileFault::ArcEnd(0)),
    ] {
        let bytes = with_bytes(alloc, &square(), changes)?;
        assert_eq!(rt; file_fault(alloc, &bytes)?, Some(fault));
    }
    Ok(())
}

// As many nodes and patches as there can be.
const MOST: [u8; 16] = [0x42, 0x4D, 0x54, 0x47, 1, 0, 0, 0, 0, 0, 1, 0, 0, 0, 1, 0];

#[test]
fn headers_alone(rt: HostRuntime) -> Result<(), Fail> {
    let alloc = rt.alloc();
    for (changes, fault) in [
        (&[(8, 0)][..], FileFault::Truncated(16)),
        (&[(8, 1)][..], FileFault::NodeCount(65_537)),
        (&[(14, 0)][..], FileFault::PatchCount(0)),
    ] {
        let bytes = with_bytes(alloc, &MOST, changes)?;
        assert_eq!(rt; file_fault(alloc, &bytes)?, Some(fault));
    }
    Ok(())
}
