//! Counts of texts, found by hand.
use crate::count::count_of;
use sexp_text::TextFault;
use std::rt::HostRuntime;
use std::test::Fail;

#[test]
fn a_text_has_a_count_or_its_first_fault(rt: HostRuntime) -> Result<(), Fail> {
    let rows = [
        ("", Ok(0)),
        ("a b", Ok(2)),
        ("a(b)c", Ok(4)),
        ("(pcb p (unit um))", Ok(6)),
        ("(pcb p (unit um", Err(TextFault::Unclosed { at: 7 })),
        ("(pcb p (unit um)))", Err(TextFault::Unopened { at: 17 })),
        ("(a \"b\nc\")", Err(TextFault::Quote { at: 3 })),
    ];
    for (text, want) in rows {
        let bytes = text.as_bytes();
        assert!(rt; bytes.len() < 100, "{text}");
        assert_eq!(rt; count_of(rt.alloc(), bytes), want, "{text}");
    }
    Ok(())
}
