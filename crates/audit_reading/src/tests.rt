//! A reader over a text of three lines.

use crate::TextReader;
use audit_lines::AuditFault;

#[test]
fn lines_are_taken_and_looked_at(rt: HostRuntime) {
    let mut reader = TextReader::new(b"serve 1\ncut 0\nend\n");
    assert!(rt; reader.ahead(0) == Ok(&b"serve 1"[..]));
    assert!(rt; reader.ahead(2) == Ok(&b"end"[..]));
    assert!(rt; reader.ahead(3) == Err(AuditFault::Short(4)));
    assert!(rt; reader.take(b"serve 1\n") == Ok(()));
    assert!(rt; reader.line() == 2);
    assert!(rt; reader.take(b"cut 1\n") == Err(AuditFault::Differs(2)));
    assert!(rt; reader.end() == Err(AuditFault::Long(2)));
    assert!(rt; reader.take(b"cut 0\nend\n") == Ok(()));
    assert!(rt; reader.end() == Ok(()));
    assert!(rt; reader.take(b"end\n") == Err(AuditFault::Short(4)));
}
