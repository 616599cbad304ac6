//! Drivers' lines, answered one by one.

use super::*;

const ORDERS: &str = "\
open 1
view 1 2 2 104 100 9 100
show 1
turns 9

sit 1
frame 2
show 1
close 1";

const ANSWERS: &str = "\
open 1
view 1
show 1 1 nodes 1 patches 1 triangles 2
cut 0
tries 1:0
patches 0
turn 0 reserve 1
turn 0 got 1
turn 0 commit 1
turn 0 idle
end
refused 42
refused 47
show 1 2 nodes 2 patches 1 triangles 4
cut 0 1
tries 1:1
patches 1
close 1 1
";

// What is answered to these lines over the square and a cache of 144 bytes.
fn driven(alloc: Global, lines: &str, room: usize) -> Result<(Status, String), Fail> {
    let mut store = store_of(alloc, &square(), &[])?;
    run_script(alloc, &["live", "Q", "144"], &mut store, lines, room)
}

#[test]
fn lines_are_answered(rt: HostRuntime) -> Result<(), Fail> {
    let (status, answers) = driven(rt.alloc(), ORDERS, 1000)?;
    assert_eq!(rt; (status, answers.as_str()), (Status::Ok, ANSWERS));
    Ok(())
}

#[test]
fn a_body_is_given_where_it_is_locked(rt: HostRuntime) -> Result<(), Fail> {
    let lines = "body 1\nopen 1\nview 1 2 2 104 100 9 100\nturns 9\nframe 1\nbody 1\nbody 0\n";
    let (status, answers) = driven(rt.alloc(), lines, 1000)?;
    assert_eq!(rt;
        (status, answers.starts_with("refused 47\nopen 1\n")),
        (Status::Ok, true)
    );
    assert_eq!(rt; answers.contains("body 1 84\n"), true);
    assert_eq!(rt; answers.contains("body 0 60\n"), true);
    Ok(())
}

#[test]
fn a_sink_that_fails_ends_it(rt: HostRuntime) -> Result<(), Fail> {
    let (status, answers) = driven(rt.alloc(), ORDERS, 10)?;
    assert_eq!(rt;
        (status, answers.as_str()),
        (Status::WriteFault, "open 1\nvie")
    );
    Ok(())
}

#[test]
fn words_and_budgets_are_those_of_a_play(rt: HostRuntime) -> Result<(), Fail> {
    let alloc = rt.alloc();
    let mut store = store_of(alloc, &square(), &[])?;
    let (status, _) = run(alloc, &["live", "Q"], &mut store, 0)?;
    assert_eq!(rt; status, Status::Usage);
    let (status, _) = run(
        alloc,
        &["live", "Q", "60", "1", "2", "3", "4"],
        &mut store,
        0,
    )?;
    assert_eq!(rt; status, Status::Usage);
    let (status, _) = run(alloc, &["live", "Q", "59"], &mut store, 0)?;
    assert_eq!(rt;
        status,
        Status::Budget {
            need: 60,
            given: 59
        }
    );
    let (status, _) = run(alloc, &["live", "P", "60"], &mut store, 0)?;
    assert_eq!(rt; status, Status::ReadFault);
    Ok(())
}
