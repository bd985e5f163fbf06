//! Runs whose jobs have other priorities than their urgencies.
use flux::flux;
use outside::{MemSink, MemSource, OpenGate};
use std::test::Fail;
use world::manager_rules::Terms;
use world::tap::Weights;

/// A job of four cores runs; behind it wait one of a core and, later, one of two.
const THREE_JOBS: &str = "actor a 0\na submit p {\"resources\":[{\"type\":\"slot\",\"count\":4,\
        \"with\":[{\"type\":\"core\",\"count\":1}],\"label\":\"task\"}],\
        \"tasks\":[{\"command\":[\"sleep\",\"100\"],\"slot\":\"task\",\"count\":{\"per_slot\":1}}],\
        \"attributes\":{\"system\":{\"duration\":0}},\"version\":1}\n\
        a submit q {\"resources\":[{\"type\":\"slot\",\"count\":1,\"with\":[{\"type\":\"core\",\
        \"count\":1}],\"label\":\"task\"}],\"tasks\":[{\"command\":[\"sleep\",\"10\"],\
        \"slot\":\"task\",\"count\":{\"per_slot\":1}}],\
        \"attributes\":{\"system\":{\"duration\":10}},\"version\":1}\n\
        a submit r {\"resources\":[{\"type\":\"slot\",\"count\":2,\"with\":[{\"type\":\"core\",\
        \"count\":1}],\"label\":\"task\"}],\"tasks\":[{\"command\":[\"sleep\",\"100\"],\
        \"slot\":\"task\",\"count\":{\"per_slot\":1}}],\
        \"attributes\":{\"system\":{\"duration\":0}},\"version\":1}\na why q\na why r\n";

/// Weights, and why the two jobs wait where they are these.
struct Order {
    weights: Weights,
    whys: &'static str,
}

const ORDERS: [Order; 4] = [
    Order {
        weights: Weights::URGENCY,
        whys: "why 14 Busy f1\nwhy 14 Behind f2\n",
    },
    Order {
        weights: Weights {
            urgency: 0,
            cores: 1,
        },
        whys: "why 14 Behind f3\nwhy 14 Busy f1\n",
    },
    // both have the least priority there is
    Order {
        weights: Weights {
            urgency: 0,
            cores: 0,
        },
        whys: "why 14 Busy f1\nwhy 14 Behind f2\n",
    },
    // and the greatest of a job that isn't expedited
    Order {
        weights: Weights {
            urgency: u32::MAX,
            cores: u32::MAX,
        },
        whys: "why 14 Busy f1\nwhy 14 Behind f2\n",
    },
];

#[test]
fn weights_order_the_queue(rt: HostRuntime) -> Result<(), Fail> {
    let alloc = rt.alloc();
    for order in &ORDERS {
        let mut words = Vec::new(alloc);
        for word in ["run", "--size", "1"] {
            words.push(String::from_str(alloc, word)?)?;
        }
        let text = Vec::from_slice(alloc, THREE_JOBS.as_bytes())?;
        let mut source = MemSource::new(text, 4096, Vec::new(alloc));
        let mut sink = MemSink::new(alloc, 4096, 4096, Vec::new(alloc))?;
        let terms = Terms {
            weights: order.weights,
            ..Terms::PLAIN
        };
        let run = flux(&rt, alloc, &words, &mut source, &mut sink, &OpenGate, terms);
        assert_eq!(rt; run.status, 0);
        let told = format!(in alloc; "submitted f1\nsubmitted f2\nsubmitted f3\n{}", order.whys)?;
        assert!(rt; sink.taken() == told.as_bytes(), "{}", order.whys);
    }
    Ok(())
}
