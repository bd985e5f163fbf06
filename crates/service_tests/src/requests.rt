//! A request's way over the links of trees of 32 brokers, up to rank 0 and back.
ghost use Rattle.std.specs.Prelude.{◌<◌};

use kvs_requests::{Row, Stage, carry, entry, is_arrived, is_carried, send_back};
use kvs_rules::KvsAsk;
use kvs_txn::By;
use lists::Bytes;
use std::alloc::{AllocError, Global};
use std::test::Fail;

/// Delivers what is on the link between two brokers, if something is, and notes the broker to which
/// it came.
fn deliver(
    rows: &mut Vec<Row>,
    fanout: u32,
    from: u32,
    to: u32,
    way: &mut String,
) -> Result<(), AllocError>
    requires { 0 < fanout }
{
    if is_carried(rows, from, to) {
        carry(rows, fanout, from, to);
        way.push_str(format!(in rows.allocator(); " {to}")?.as_str())?;
    }
    Ok(())
}

/// A request of a broker, at the beginning of its way.
fn requested(alloc: Global, fanout: u32, broker: u32) -> Result<Vec<Row>, AllocError>
    requires { 0 < fanout }
{
    let by = By {
        actor: 0,
        command: 0,
    };
    let namespace = Bytes::of(alloc, b"lost")?;
    let mut rows = Vec::with_capacity(alloc, 1)?;
    rows.push(Row {
        by,
        broker,
        namespace,
        need: 3,
        stage: entry(KvsAsk::Wait { number: 3 }, None, fanout, broker),
    })?;
    Ok(rows)
}

/// Delivers what goes up, broker by broker from the last one on.
fn rise(rows: &mut Vec<Row>, fanout: u32, way: &mut String) -> Result<(), AllocError>
    requires { 0 < fanout }
{
    for from in (1..32u32).rev() {
        deliver(rows, fanout, from, (from - 1) / fanout, way)?;
    }
    Ok(())
}

/// Delivers what goes down, broker by broker from the first one on.
fn fall(rows: &mut Vec<Row>, fanout: u32, way: &mut String) -> Result<(), AllocError>
    requires { 0 < fanout }
{
    for to in 1..32u32 {
        deliver(rows, fanout, (to - 1) / fanout, to, way)?;
    }
    Ok(())
}

/// Sends a request back that has come to rank 0, and tells whether it had.
fn turn_back(rows: &mut Vec<Row>, fanout: u32) -> bool
    requires { 0 < fanout }
{
    if rows.is_empty() || !is_arrived(&rows[0]) {
        return false;
    }
    send_back(rows, 0, fanout, 0);
    true
}

/// Whether the request waits at its broker.
fn is_parked(rows: &Vec<Row>) -> bool {
    match rows.first() {
        Some(row) => matches!(&row.stage, Stage::Parked { .. }),
        None => false,
    }
}

/// Notes the brokers to which a request comes on its way to rank 0 and back, and `parked` where it
/// waits at its broker then.
fn follow(rows: &mut Vec<Row>, fanout: u32, way: &mut String) -> Result<(), Fail>
    requires { 0 < fanout }
{
    rise(rows, fanout, way)?;
    if !turn_back(rows, fanout) {
        return Err(Fail::new("it came to rank 0"));
    }
    fall(rows, fanout, way)?;
    if is_parked(rows) {
        way.push_str(" parked")?;
    }
    Ok(())
}

/// Whether a request of a broker goes this way.
fn goes(alloc: Global, fanout: u32, broker: u32, want: &str) -> Result<bool, Fail> {
    if fanout == 0 {
        return Err(Fail::new("a broker has one below it"));
    }
    let mut rows = requested(alloc, fanout, broker)?;
    let mut way = String::new(alloc);
    follow(&mut rows, fanout, &mut way)?;
    Ok(way.as_str() == want)
}

/// A fan-out, a broker, and the way of its request.
const WAYS: [(u32, u32, &str); 7] = [
    (2, 0, " parked"),
    (2, 1, " 0 1 parked"),
    (2, 6, " 2 0 2 6 parked"),
    (2, 31, " 15 7 3 1 0 1 3 7 15 31 parked"),
    (1, 3, " 2 1 0 1 2 3 parked"),
    (31, 31, " 0 31 parked"),
    (30, 31, " 1 0 1 31 parked"),
];

#[test]
fn a_request_goes_up_and_comes_back(rt: HostRuntime) -> Result<(), Fail> {
    for (fanout, broker, want) in &WAYS {
        assert!(rt;
            goes(rt.alloc(), *fanout, *broker, want)?,
            "of broker {broker} with the fan-out {fanout}"
        );
    }
    Ok(())
}
