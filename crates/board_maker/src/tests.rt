//! Made texts against those of another program, which was written apart from this one.
use crate::make;
use std::test::Fail;

// The bytes folded from the left.
fn fold(text: &[u8]) -> u32 {
    let mut folded = 0u32;
    for byte in text {
        folded = folded.wrapping_mul(31).wrapping_add(u32::from(*byte));
    }
    folded
}

const DESIGN: &[u8] =
    b"(pcb made.dsn\n(unit um)\n(structure\n(layer L1 (type signal))\n(layer L2 (type signal))\n(via V)\n(rule (width 100) (clearance 100))\n)\n(library\n(padstack V (shape (circle L1 400)) (shape (circle L2 400)))\n)\n(network\n(net N0)\n)\n)\n";

const SCRIPT_0: &[u8] =
    b"do 1 edit 0 1 wire 0 1 100000 2 20000000 25600000 20900000 25600000\ndo 2 edit 0 1 via 0 0 20000000 25000000\ndo 3 edit 0 1 via 0 0 27000000 12800000\ndo 4 edit 0 1 wire 0 0 100000 2 27000000 600000 27900000 600000\n";

const SCRIPT_10: &[u8] =
    b"do 1 edit 1 1 0\ndo 2 edit 0 1 wire 0 1 100000 2 44000000 48200000 44900000 48200000\ndo 3 edit 1 2 0\ndo 4 edit 0 1 via 0 0 13000000 43000000\n";

#[test]
fn made_texts_are_those_of_another_program(rt: HostRuntime) -> Result<(), Fail> {
    for (number, script) in [(0, SCRIPT_0), (10, SCRIPT_10)] {
        let made = make(rt.alloc(), 1, number)?;
        assert_eq!(rt; made.0.as_slice(), DESIGN, "the design of {number}");
        assert_eq!(rt; made.1.as_slice(), script, "the script of {number}");
    }
    for (nets, number, lengths, folds) in [
        (
            500,
            12_345,
            (5_605, 117_359),
            (3_496_539_488, 1_376_724_021),
        ),
        (
            2_000,
            4_294_967_295,
            (23_105, 476_117),
            (1_890_111_174, 4_206_535_874),
        ),
    ] {
        let made = make(rt.alloc(), nets, number)?;
        assert_eq!(rt;
            (made.0.len(), made.1.len()),
            lengths,
            "the lengths of {nets} {number}"
        );
        let folded = (fold(made.0.as_slice()), fold(made.1.as_slice()));
        assert_eq!(rt; folded, folds, "the bytes of {nets} {number}");
    }
    Ok(())
}
