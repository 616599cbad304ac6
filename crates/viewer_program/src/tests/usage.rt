//! Words that are no command, and names of no file.

use super::*;

#[test]
fn no_commands(rt: HostRuntime) -> Result<(), Fail> {
    let alloc = rt.alloc();
    for words in [
        &[][..],
        &["base"][..],
        &["base", ""][..],
        &["check", ""][..],
        &["base", "Q", "Q"][..],
        &["bases", "Q"][..],
        &["full", "Q"][..],
        &["full", "", "2", "2", "104", "100", "9", "100"][..],
        &["full", "Q", "2", "2", "104", "100", "9"][..],
        &["cull", "Q", "2", "2", "104", "100", "9", "100"][..],
        &[
            "cull", "", "2", "2", "104", "100", "9", "100", "1", "0", "0", "0",
        ][..],
        &["sides", "Q", "1", "0", "0"][..],
        &["sides", "Q", "1", "0", "0", "0", "0"][..],
        &["sides", "", "1", "0", "0", "0"][..],
        &["pick", "Q", "2", "2", "104", "100", "9", "100"][..],
        &[
            "pick", "Q", "2", "2", "104", "100", "9", "100", "1", "2", "10", "0", "0",
        ][..],
        &["play", "Q"][..],
        &["play", "", "144"][..],
        &["play", "Q", "0144"][..],
        &["play", "Q", "1099511627777"][..],
        &["play", "Q", "144", "1", "1", "1", "1"][..],
        &["playw", "Q", "2"][..],
        &["playw", "Q", "0", "144"][..],
        &["playw", "Q", "9", "144"][..],
        &["serve", "Q", "144"][..],
        &["make", "3"][..],
        &["bench", "3"][..],
        &["bench", "0"][..],
    ] {
        let (status, written) = run_on(alloc, words, &square())?;
        assert_eq!(rt; (status, written.as_str()), (Status::Usage, ""));
    }
    Ok(())
}

#[test]
fn a_missing_file(rt: HostRuntime) -> Result<(), Fail> {
    let alloc = rt.alloc();
    for words in [
        &["base", "R"][..],
        &["check", "R"][..],
        &["play", "R", "144"][..],
        &["full", "R", "2", "2", "104", "100", "9", "100"][..],
        &[
            "cull", "R", "2", "2", "104", "100", "9", "100", "1", "0", "0", "0",
        ][..],
        &["sides", "R", "1", "0", "0", "0"][..],
    ] {
        let (status, written) = run_on(alloc, words, &square())?;
        assert_eq!(rt; (status, written.as_str()), (Status::ReadFault, ""));
    }
    Ok(())
}
