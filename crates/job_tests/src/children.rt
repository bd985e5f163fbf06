//! The R of a child instance.
use child_grant::child;
use resource_set::{print, read};
use std::test::Fail;

/// What stands under `execution` of a job's R, and of its child's.
const GRANTS: [(&str, &str); 4] = [
    (
        "{\"R_lite\":[{\"children\":{\"core\":\"0-3\",\"gpu\":\"1\"},\"rank\":\"3\"},\
            {\"children\":{\"core\":\"2\"},\"rank\":\"7\"}],\"expiration\":3600,\
            \"nodelist\":[\"node[3,7]\"],\"starttime\":5}",
        "{\"R_lite\":[{\"children\":{\"core\":\"0-3\",\"gpu\":\"1\"},\"rank\":\"0\"},\
            {\"children\":{\"core\":\"2\"},\"rank\":\"1\"}],\"expiration\":3600,\
            \"nodelist\":[\"node[3,7]\"],\"starttime\":5}",
    ),
    (
        "{\"R_lite\":[{\"children\":{\"core\":\"0\"},\"rank\":\"2,4,65535\"}],\"expiration\":0,\
            \"nodelist\":[\"c,a,b\"],\"starttime\":0}",
        "{\"R_lite\":[{\"children\":{\"core\":\"0\"},\"rank\":\"0-2\"}],\"expiration\":0,\
            \"nodelist\":[\"c,a,b\"],\"starttime\":0}",
    ),
    (
        "{\"R_lite\":[{\"children\":{\"core\":\"0\"},\"rank\":\"0\"}],\"expiration\":0,\
            \"nodelist\":[\"node0\"],\"starttime\":0}",
        "{\"R_lite\":[{\"children\":{\"core\":\"0\"},\"rank\":\"0\"}],\"expiration\":0,\
            \"nodelist\":[\"node0\"],\"starttime\":0}",
    ),
    (
        "{\"R_lite\":[],\"expiration\":0,\"nodelist\":[],\"starttime\":0}",
        "{\"R_lite\":[],\"expiration\":0,\"nodelist\":[],\"starttime\":0}",
    ),
];

/// Whether the child of a job's R is this.
fn is_child(rt: &HostRuntime, job: &str, wanted: &str) -> Result<bool, Fail> {
    let text = format!(in rt.alloc(); "{{\"execution\":{job},\"version\":1}}")?;
    let granted = child(rt.alloc(), &read(rt.alloc(), text.as_bytes())?)?;
    let printed = print(rt.alloc(), &granted)?;
    let wanted = format!(in rt.alloc(); "{{\"execution\":{wanted},\"version\":1}}")?;
    Ok(printed.as_slice() == wanted.as_bytes())
}

#[test]
fn ranks_are_numbered_from_0(rt: HostRuntime) -> Result<(), Fail> {
    for (job, wanted) in &GRANTS {
        assert!(rt; is_child(&rt, job, wanted)?, "{job}");
    }
    Ok(())
}
