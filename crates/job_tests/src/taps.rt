//! What kept callbacks answer.
use std::test::Fail;
use tap::{Ask, Check, Tap};

#[test]
fn callbacks_answer(rt: HostRuntime) -> Result<(), Fail> {
    let tap = Tap::new(|ask: &Ask| ask.urgency.max(1).min(31));
    let check = Check::new(|ask: &Ask| if 2 < ask.cores { 7 } else { 0 });
    for (urgency, cores, answer, verdict) in [
        (0, 1, 1, 0),
        (1, 2, 1, 0),
        (16, 3, 16, 7),
        (40, 4, 31, 7),
    ] {
        let ask = Ask {
            id: 7,
            urgency,
            userid: 1000,
            cores,
        };
        assert_eq!(rt; tap.answer(&ask), answer);
        assert_eq!(rt; check.answer(&ask), verdict);
    }
    Ok(())
}
