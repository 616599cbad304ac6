//! What is printed of accepted files.

use super::*;

#[test]
fn base_of_the_square(rt: HostRuntime) -> Result<(), Fail> {
    let alloc = rt.alloc();
    let mut store = store_of(alloc, &square(), &[])?;
    let (status, written) = run(alloc, &["base", "Q"], &mut store, 1000)?;
    assert_eq!(rt; (status, written.as_str()), (Status::Ok, SQUARE_BASE));
    // The file, and the base's body once more.
    assert_eq!(rt; store.taken(), 304);
    Ok(())
}

#[test]
fn base_of_version_2(rt: HostRuntime) -> Result<(), Fail> {
    let (_, written) = run_on(rt.alloc(), &["base", "Q"], &square_2())?;
    assert_eq!(rt; written.as_str(), SQUARE_BASE);
    Ok(())
}

#[test]
fn base_of_another_root(rt: HostRuntime) -> Result<(), Fail> {
    let (_, written) = run_on(rt.alloc(), &["base", "Q"], &turned())?;
    assert_eq!(rt;
        written.as_str(),
        "frame 0 1 nodes 1 patches 1 triangles 2 open 4\ncut 2\ntries\npatches 0\n0 0 0 4 0 0 4 4 0\n0 0 0 4 4 0 0 4 0\n"
    );
    Ok(())
}

#[test]
fn accepted_lines(rt: HostRuntime) -> Result<(), Fail> {
    let alloc = rt.alloc();
    // The ball of node 1 still lies in that of node 0.
    let wide = with_bytes(alloc, &square(), &[(48, 8)])?;
    for (bytes, line) in [
        (&square()[..], SQUARE_ACCEPTED),
        (&turned()[..], SQUARE_ACCEPTED),
        (wide.as_slice(), SQUARE_ACCEPTED),
        (
            &halves()[..],
            "accepted nodes 3 patches 3 triangles 6 open 4\n",
        ),
        (
            &strip()[..],
            "accepted nodes 5 patches 7 triangles 18 open 6\n",
        ),
    ] {
        let (status, written) = run_on(alloc, &["check", "Q"], bytes)?;
        assert_eq!(rt; (status, written.as_str()), (Status::Ok, line));
    }
    Ok(())
}
