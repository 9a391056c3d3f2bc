//! Number texts.

use dsn_lists::{DesignKind, Found, fault, length_at, width_at};
use sexp_text::{AngleFault, NumFault, Unit, angle_of, length_of};

// By hand, from the factors of the units; half a nanometre is rounded away from 0.
#[test]
fn a_length_is_whole_nanometres(rt: HostRuntime) {
    let rows = [
        ("1", Unit::Inch, Ok(25_400_000)),
        ("-.5", Unit::Mm, Ok(-500_000)),
        ("-12.0005", Unit::Um, Ok(-12_001)),
        ("1e+2", Unit::Cm, Ok(1_000_000_000)),
        ("1000.000001", Unit::Mm, Err(NumFault::Range)),
        ("1e1000", Unit::Mil, Err(NumFault::NotNumber)),
    ];
    for (text, unit, want) in rows {
        assert!(rt; length_of(text.as_bytes(), unit) == want, "{text}");
    }
}

// By hand: degrees divided by 45, less the whole turns.
#[test]
fn an_angle_is_whole_eighths(rt: HostRuntime) {
    let rows = [
        ("4.5e1", Ok(1)),
        ("-45", Ok(7)),
        ("3600", Ok(0)),
        ("3645", Err(AngleFault::NotAngle)),
        ("45deg", Err(AngleFault::NotNumber)),
    ];
    for (text, want) in rows {
        assert!(rt; angle_of(text.as_bytes()) == want, "{text}");
    }
}

/// A word at byte 7.
pub(crate) fn word(text: &[u8]) -> Found<'_> {
    Found { at: 7, text }
}

// By hand: a length is at most 1,000 mm, a width at most 100 mm.
#[test]
fn a_word_is_measured(rt: HostRuntime) {
    let (long, wide) = (word(b"-1000"), word(b"100"));
    assert!(rt; length_at(Unit::Mm, long) == Ok(-1_000_000_000));
    assert!(rt; width_at(Unit::Mm, wide) == Ok(100_000_000));
    let range = Err(fault(DesignKind::Range, 7));
    assert!(rt; length_at(Unit::Cm, word(b"100.1")) == range, "too long");
    let width = Err(fault(DesignKind::Width, 7));
    assert!(rt; width_at(Unit::Cm, word(b"10.1")) == width, "too wide");
}
