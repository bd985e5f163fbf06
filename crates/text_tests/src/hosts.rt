//! What hostlists (Flux RFC 29) say of their hosts.
ghost use Rattle.std.specs.Prelude.{◌≡◌};

use hostlist::{HostList, HostName, is_host_name};
use std::alloc::Global;

/// The hosts of a text that spells some.
fn hosts_of(alloc: Global, text: &str) -> HostList {
    HostList::read(alloc, text.as_bytes()).unwrap_or(HostList::new(alloc))
}

/// Whether each name is found at its place in a list of three hosts, which ends with the third and
/// is the same as its copy.
fn are_three(hosts: &HostList) -> bool {
    let rows = [("a", Some(0)), ("b", Some(1)), ("c", None), ("", None)];
    let are_found = rows
        .iter()
        .all(|(name, place)| hosts.find(name.as_bytes()) == *place);
    let is_third = hosts.nth(2).is_some_and(|name| name == b"a".as_slice());
    let is_all = hosts.nth(3).is_none() && hosts.len() == 3 && !hosts.is_empty();
    are_found && is_third && is_all && hosts.copy().is_ok_and(|twin| twin == *hosts)
}

/// Whether the last of 65,536 hosts is found.
fn are_many(hosts: &HostList) -> bool {
    let last = hosts
        .nth(65_535)
        .is_some_and(|name| name == b"n65535".as_slice());
    last && hosts.len() == 65_536 && hosts.find(b"n65535") == Some(65_535)
}

#[test]
fn hosts_are_found_in_their_order(rt: HostRuntime) {
    assert!(rt; are_three(&hosts_of(rt.alloc(), "a,b,a")));
    assert!(rt; hosts_of(rt.alloc(), "a,b,a") != hosts_of(rt.alloc(), "a,a,b"));
    assert!(rt; are_many(&hosts_of(rt.alloc(), "n[00000-65535]")));
}

#[test]
fn hosts_are_added_at_the_end(rt: HostRuntime) {
    let mut hosts = HostList::new(rt.alloc());
    for name in ["a", "", "b7", "a b", "n[1]", "é", "a"] {
        if is_host_name(name.as_bytes()) {
            assert!(rt; hosts.push(name.as_bytes()).is_ok());
        }
    }
    assert!(rt; hosts == hosts_of(rt.alloc(), "a,b7,a"));
    assert!(rt;
        hosts
            .as_slice()
            .iter()
            .all(|name| !name.as_slice().is_empty())
    );
}

#[test]
fn names_are_made_and_copied(rt: HostRuntime) {
    let name = HostName::joined(rt.alloc(), b"b", b"7");
    assert!(rt; name.is_ok_and(|name| name.as_slice() == b"b7".as_slice()));
    let name = HostName::of(rt.alloc(), b"b7");
    assert!(rt; name.is_ok_and(|name| name.copy().is_ok_and(|twin| twin == name)));
}
