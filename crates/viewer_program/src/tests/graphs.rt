//! Files that are no accepted mesh.

use super::*;

#[test]
fn a_circle(rt: HostRuntime) -> Result<(), Fail> {
    let alloc = rt.alloc();
    assert_eq!(rt; mesh_fault(alloc, &circle())?, Some(DagFault::Cycle(1)));
    // The third patch leads to node 0.
    let rootless = with_bytes(alloc, &circle(), &[(104, 0)])?;
    assert_eq!(rt; mesh_fault(alloc, &rootless)?, Some(DagFault::NoRoot));
    Ok(())
}

#[test]
fn faults_of_graphs(rt: HostRuntime) -> Result<(), Fail> {
    let alloc = rt.alloc();
    for (changes, fault) in [
        // The first patch leads to node 2.
        (&[(80, 2)][..], DagFault::TwoRoots(0, 1)),
        (&[(48, 9)][..], DagFault::BallNotNested(0)),
        // Radius 5, and at distance 4 radius 2.
        (&[(28, 5), (36, 6), (48, 2)][..], DagFault::BallNotNested(0)),
        (&[(52, 101)][..], DagFault::ErrorNotNested(0)),
    ] {
        let bytes = with_bytes(alloc, &square(), changes)?;
        assert_eq!(rt; mesh_fault(alloc, &bytes)?, Some(fault));
    }
    Ok(())
}

// The places of the fan's first two corners, in each triangle the other way round.
const DOWN: [(usize, u8); 8] = [
    (220, 1),
    (222, 0),
    (226, 2),
    (228, 1),
    (232, 3),
    (234, 2),
    (238, 0),
    (240, 3),
];

#[test]
fn a_fan_that_faces_down(rt: HostRuntime) -> Result<(), Fail> {
    let alloc = rt.alloc();
    let down = with_bytes(alloc, &square(), &DOWN)?;
    let low = Point { x: 0, y: 0, z: 0 };
    let high = Point { x: 0, y: 4, z: 0 };
    assert_eq!(rt;
        mesh_fault(alloc, &down)?,
        Some(DagFault::Border(1, low, high, -1, 1))
    );
    // A fault of the file comes before one of the mesh.
    let corner = with_bytes(alloc, &down, &[(242, 5)])?;
    assert_eq!(rt;
        file_fault(alloc, &corner)?,
        Some(FileFault::CornerIndex(1, 3, 5))
    );
    Ok(())
}
