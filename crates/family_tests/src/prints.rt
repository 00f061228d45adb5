//! How faults print: the number of each reason and the letter of each layer.

use signs::{Layer, Reason};
use std::test::Fail;

#[test]
fn faults(rt: HostRuntime) -> Result<(), Fail> {
    for (layer, reason, place, text) in [
        (Layer::Family, Reason::Width, 0, "refused 1 F 0"),
        (Layer::Family, Reason::Rows, 0, "refused 2 F 0"),
        (Layer::Family, Reason::SignByte, 7, "refused 3 F 7"),
        (Layer::Family, Reason::Unbalanced, 131, "refused 4 F 131"),
        (Layer::Family, Reason::Seed, 1, "refused 5 F 1"),
        (Layer::Family, Reason::Slot, 0, "refused 6 F 0"),
        (Layer::Family, Reason::Block, 0, "refused 7 F 0"),
        (Layer::Family, Reason::Interval, 0, "refused 8 F 0"),
        (Layer::Sketch, Reason::Shape, 0, "refused 9 S 0"),
        (Layer::Sketch, Reason::Table, 3, "refused 10 S 3"),
        (Layer::Sketch, Reason::ForeignCells, 482, "refused 11 S 482"),
        (Layer::Sketch, Reason::Weight, 0, "refused 12 S 0"),
        (Layer::Sketch, Reason::Full, 0, "refused 13 S 0"),
        (Layer::List, Reason::Layout, 60000, "refused 14 L 60000"),
        (Layer::List, Reason::Field, 2, "refused 15 L 2"),
        (Layer::List, Reason::OptionOpen, 0, "refused 16 L 0"),
        (Layer::List, Reason::NoOption, 0, "refused 17 L 0"),
        (Layer::StoredFile, Reason::Card, 2880, "refused 18 D 2880"),
        (Layer::StoredFile, Reason::Figures, 0, "refused 19 D 0"),
        (
            Layer::StoredFile,
            Reason::Output,
            u64::MAX,
            "refused 20 D 18446744073709551615",
        ),
    ] {
        let fault = layer.fault(reason, place);
        assert_eq!(rt; fault.to_string(rt.alloc())?.as_str(), text);
    }
    Ok(())
}

// The number and the letter apart, as a caller with lines of its own prints them.
#[test]
fn parts(rt: HostRuntime) {
    let fault = Layer::Sketch.fault(Reason::Full, 0);
    assert_eq!(rt; fault.number(), 13);
    assert_eq!(rt; fault.letter(), 'S');
}
