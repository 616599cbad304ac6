//! A body with as many points and triangles as one can have.

use super::*;

// Two nodes and one patch.
const HEADER: [u8; 16] = [0x42, 0x4D, 0x54, 0x47, 1, 0, 0, 0, 2, 0, 0, 0, 1, 0, 0, 0];

// The patch from node 0 to node 1.
const FIELD: [u8; 12] = [0, 0, 0, 0, 1, 0, 0, 0, 0xFF, 0xFF, 0xFF, 0xFF];

// A file whose one patch has 65,535 points on a line but for the last, and as many triangles.
fn large(alloc: Global) -> Result<Vec<u8>, Fail> {
    let mut bytes = HEADER.to_vec(alloc)?;
    bytes.extend_from_slice(&[0; 40])?;
    bytes.extend_from_slice(&FIELD)?;
    for x in 0..65_534_u32 {
        bytes.extend_from_slice(&x.to_le_bytes())?;
        bytes.extend_from_slice(&[0; 8])?;
    }
    bytes.extend_from_slice(&[0, 0, 0, 0, 1, 0, 0, 0, 0, 0, 0, 0])?;
    for first in 0..65_533_u16 {
        put_triangle(&mut bytes, first)?;
    }
    put_triangle(&mut bytes, 0)?;
    put_triangle(&mut bytes, 0)?;
    Ok(bytes)
}

// Appends the triangle of a point, the next one and the last.
fn put_triangle(bytes: &mut Vec<u8>, first: u16) -> Result<(), Fail> {
    for corner in [first, first.saturating_add(1), 65_534] {
        bytes.extend_from_slice(&corner.to_le_bytes())?;
    }
    Ok(())
}

#[test]
fn a_large_body(rt: HostRuntime) -> Result<(), Fail> {
    let alloc = rt.alloc();
    let bytes = large(alloc)?;
    assert_eq!(rt; bytes.len(), 1_179_698);
    let (status, written) = run_on(alloc, &["check", "Q"], &bytes)?;
    assert_eq!(rt; status, Status::Ok);
    assert_eq!(rt;
        written.as_str(),
        "accepted nodes 2 patches 1 triangles 65535 open 65536\n"
    );
    Ok(())
}
